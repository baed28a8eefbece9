//! The version of the program.
ghost use Rattle.std.specs.Prelude.{◌≡◌};
ghost use Rattle.zed_tool_words.specs.Version.{version_text};

/// The number of the release, and the kit that its functions are proved with, as `rt version`
/// prints it.
pub(crate) const VERSION: &str = "zztool 4\nproved with rattle-kit-13f logic dac8208d650f15bf\n";

/// What `--version` prints.
pub fn version() -> &'static str
    ensures { result.now ≡ version_text }
{
    VERSION
}
