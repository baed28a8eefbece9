//! A world file, and the playtest in it that lines go on with.
use crate::pictures::{put_board, put_played};
use crate::sheet::{Sheet, refuse};
use crate::telling::{put_effects, put_play, put_scene};
use std::alloc::{AllocError, Global};
use zed_oop::{Scene, turn};
use zed_play::{Key, Play, PlayError, Way};
use zed_world::{World, read_world};

/// A world file, the playtest that goes on, the way on which its last key led, the board of which turns are made, and what is printed.
#[derive(Drop)]
pub struct Stage<'a> {
    pub alloc: Global,
    file: &'a [u8],
    play: Option<Play>,
    way: Way,
    scene: Option<Scene>,
    pub sheet: Sheet,
}

fn key_of(number: u16) -> Option<Key> {
    match number {
        0 => Some(Key::Wait),
        1 => Some(Key::North),
        2 => Some(Key::South),
        3 => Some(Key::West),
        4 => Some(Key::East),
        5 => Some(Key::ShootNorth),
        6 => Some(Key::ShootSouth),
        7 => Some(Key::ShootWest),
        8 => Some(Key::ShootEast),
        _ => None,
    }
}

/// The playtest that goes on on another board.
fn next(
    alloc: Global,
    play: &Play,
    world: &World,
    board: u16,
    way: Way,
) -> Result<Play, PlayError> {
    match play.enter(alloc, world, usize::from(board), way) {
        Ok(Some(next)) => Ok(next),
        Ok(None) => Err(PlayError::NoBoard),
        Err(_) => Err(PlayError::Memory),
    }
}

/// A copy of a scene that is there, or else of the board of a playtest that began.
fn copy_of(
    alloc: Global,
    scene: &Option<Scene>,
    play: &Option<Play>,
) -> Option<Result<Scene, AllocError>> {
    match scene {
        Some(scene) => Some(scene.copy(alloc)),
        None => Some(play.as_ref()?.board().copy(alloc)),
    }
}

impl<'a> Stage<'a> {
    pub fn new(alloc: Global, file: &'a [u8]) -> Stage<'a> {
        Stage {
            alloc,
            file,
            play: None,
            way: Way::Other,
            scene: None,
            sheet: Sheet {
                text: String::new(alloc),
            },
        }
    }

    fn world(&self) -> Option<World> {
        read_world(self.alloc, self.file).ok()
    }

    /// Tells of the playtest, after a call of this outcome.
    fn tell(&mut self, stepped: Result<usize, PlayError>) -> Option<()> {
        match stepped {
            Ok(used) => {
                self.sheet.line("used");
                self.sheet.size(Some(used));
            }
            Err(error) => self.sheet.error(&error),
        }
        if let Some(play) = &self.play {
            put_play(play, &mut self.sheet);
        }
        Some(())
    }

    /// Goes on with a playtest, if it began.
    fn begin(&mut self, begun: Result<Play, PlayError>) -> Option<()> {
        self.sheet.did(self.alloc);
        match begun {
            Ok(play) => {
                self.play = Some(play);
                self.scene = None;
                self.tell(Ok(0))
            }
            Err(error) => self.tell(Err(error)),
        }
    }

    fn open(&mut self, growth: u16, board: u16, tick: u16) -> Option<()> {
        let world = self.world()?;
        refuse(self.alloc, growth);
        self.begin(Play::new(self.alloc, world, usize::from(board), tick))
    }

    fn enter(&mut self, growth: u16, board: u16) -> Option<()> {
        let world = self.world()?;
        let play = self.play.as_ref()?;
        refuse(self.alloc, growth);
        let begun = next(self.alloc, play, &world, board, self.way);
        self.begin(begun)
    }

    fn press(&mut self, growth: u16, key: u16, words: &[u16]) -> Option<()> {
        let key = key_of(key)?;
        let play = self.play.as_mut()?;
        self.way = play.way(key);
        refuse(self.alloc, growth);
        let stepped = play.step(key, words);
        self.sheet.did(self.alloc);
        self.tell(stepped)
    }

    fn choose(&mut self, growth: u16, scroll: u16, line: u16) -> Option<()> {
        let play = self.play.as_mut()?;
        refuse(self.alloc, growth);
        let chosen = play.choose(usize::from(scroll), usize::from(line));
        self.sheet.did(self.alloc);
        match chosen {
            Ok(chosen) => self.sheet.error(&chosen),
            Err(_) => self.sheet.error(&PlayError::Memory),
        }
        put_play(play, &mut self.sheet);
        Some(())
    }

    /// Copies the board of the playtest, or once more the copy that is there.
    fn copy(&mut self, growth: u16) -> Option<()> {
        refuse(self.alloc, growth);
        let copied = copy_of(self.alloc, &self.scene, &self.play);
        self.sheet.did(self.alloc);
        if let Ok(scene) = copied? {
            put_scene(&scene, &mut self.sheet);
            self.scene = Some(scene);
        }
        Some(())
    }

    fn turn(&mut self, growth: u16, stat: u16, words: &[u16]) -> Option<()> {
        let scene = self.scene.as_mut()?;
        refuse(self.alloc, growth);
        let turned = turn(self.alloc, scene, usize::from(stat), words);
        self.sheet.did(self.alloc);
        match turned {
            Ok(effects) => put_effects(&effects, &mut self.sheet),
            Err(error) => self.sheet.error(&error),
        }
        put_scene(scene, &mut self.sheet);
        Some(())
    }

    fn look(&mut self, growth: u16) -> Option<()> {
        put_played(self.alloc, growth, self.play.as_ref()?, &mut self.sheet);
        Some(())
    }

    fn draw(&mut self, growth: u16, board: u16) -> Option<()> {
        put_board(
            self.alloc,
            growth,
            &self.world()?,
            usize::from(board),
            &mut self.sheet,
        );
        Some(())
    }

    /// Does what a line asks for, if it can be done. The first number is the growth that is refused, or 0.
    pub fn act(&mut self, word: &str, numbers: &[u16]) -> Option<()> {
        match (word, numbers) {
            ("open", [growth, board, tick]) => self.open(*growth, *board, *tick),
            ("key", [growth, key, words @ ..]) => self.press(*growth, *key, words),
            ("choose", [growth, scroll, line]) => self.choose(*growth, *scroll, *line),
            ("enter", [growth, board]) => self.enter(*growth, *board),
            ("copy", [growth]) => self.copy(*growth),
            ("turn", [growth, stat, words @ ..]) => self.turn(*growth, *stat, words),
            ("look", [growth]) => self.look(*growth),
            ("drawn", [growth, board]) => self.draw(*growth, *board),
            _ => None,
        }
    }
}
