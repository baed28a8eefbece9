//! What acts, and what can be touched.
ghost use Rattle.std.specs.Prelude.{◌≡◌};
ghost use Rattle.zed_play.specs.Pieces.{piece_of};

/// What an element is.
#[tactic(auto, unfolding(crate::specs::Pieces::piece_of))]
pub(crate) fn piece_of(element: u8) -> Piece
    ensures { result ≡ piece_of element }
{
    match element {
        4 => Piece::Player,
        5 => Piece::Ammo,
        6 => Piece::Torch,
        7 => Piece::Gem,
        8 => Piece::Key,
        9 => Piece::Door,
        10 => Piece::Scroll,
        11 => Piece::Passage,
        14 => Piece::Energizer,
        18 => Piece::Bullet,
        20 => Piece::Forest,
        24 => Piece::Boulder,
        25 => Piece::Slider,
        26 => Piece::Slider,
        28 => Piece::Invisible,
        34 => Piece::Bear,
        36 => Piece::Object,
        40 => Piece::Pusher,
        41 => Piece::Lion,
        42 => Piece::Tiger,
        _ => Piece::Other,
    }
}

/// What a tile is, as far as it acts or can be touched.
#[derive(Clone, Copy, PartialEq, Eq)]
pub enum Piece {
    Player,
    Ammo,
    Torch,
    Gem,
    Key,
    Door,
    Scroll,
    Passage,
    Energizer,
    Bullet,
    Forest,
    Boulder,
    Slider,
    Invisible,
    Bear,
    Object,
    Pusher,
    Lion,
    Tiger,
    Other,
}
