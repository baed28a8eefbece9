//! The programs of a board.
ghost use Rattle.std.specs.Prelude.{◌≡◌, [], ◌<◌, length, slice_get, Some};
ghost use Rattle.zed_scene.specs.Scene.{program_of, put_program};

use crate::scene::Scene;
use zed_types::Bytes;

impl Scene {
    /// The bytes of a program; none without one.
    pub fn program(&self, program: Option<usize>) -> &[u8]
        ensures result { result.now ≡ program_of self.now program }
    {
        match program {
            Some(k) => match self.programs.as_slice().get(k) {
                Some(bytes) => bytes.as_slice(),
                None => &[],
            },
            None => &[],
        }
    }

    /// Puts other bytes in the place of a program, for all stats that share it, and answers those that were there.
    pub fn put_program(&mut self, k: usize, bytes: Bytes) -> Bytes
        requires { k < length self.old.programs }
        ensures result { self.new ≡ put_program k bytes self.old }
        ensures edits { slice_get self.old.programs k ≡ Some result }
    {
        self.programs.replace(k, bytes)
    }
}
