//! Reading digits.
ghost use Rattle.std.specs.Prelude.{◌≡◌, ◌≤◌, IfSome};
ghost use Rattle.std.specs.Char.{is_ascii_digit};
ghost use Rattle.std.specs.List.{list_all};
ghost use Rattle.zed_plaintext.specs.Digits.{digits_of};

fn is_digits(word: &str) -> bool
    ensures { result ≡ list_all is_ascii_digit word.now }
{
    word.as_bytes().iter().all(|byte| byte.is_ascii_digit())
}

/// The number that a word of digits spells, if it is at most `most`.
pub fn digits(word: &str, most: u64) -> Option<u64>
    ensures result { result ≡ digits_of most word.now }
    ensures within { IfSome result (λ n. n ≤ most) }
{
    if !is_digits(word) {
        return None;
    }
    match word.parse::<u64>() {
        Ok(n) => { if n <= most { Some(n) } else { None } }
        Err(_) => None,
    }
}
