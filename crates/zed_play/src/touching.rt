//! What comes of the player's touch.
ghost use Rattle.std.specs.Prelude.{◌≡◌, ◌<◌};
ghost use Rattle.zed_play.specs.Game.{Answers};
ghost use Rattle.zed_play.specs.Touch.{Touches, closed, door_opened, key_found, opened, passed_by, scroll_at, takes, touched};

use crate::bullets::{take_away, tell};
use crate::game::Game;
use crate::piece::{Piece, piece_of};
use crate::scrolls::Voice;
use std::alloc::Global;
use zed_oop::{Counter, Scene, SceneError, Step, Words, give};
use zed_types::{Place, Tile};

const SCROLL: u8 = 10;

const NORMAL: u8 = 22;

/// The stat of a scroll at a place.
fn scroll_at(scene: &Scene, place: Place) -> Option<usize>
    ensures { result ≡ scroll_at place scene.now }
{
    if scene.tile(place).element == SCROLL {
        scene.stat_at(place)
    } else {
        None
    }
}

impl Game {
    fn take_at(&mut self, place: Place)
        ensures { self.new ≡ takes place self.old }
    {
        self.scene.put(place, Tile::EMPTY);
    }

    /// Takes a key, unless one of its colour is held.
    fn find_key(&mut self, k: u8, place: Place)
        requires { k < 8 }
        ensures { self.new ≡ key_found k place self.old }
    {
        if 1 <= k && !self.keys[usize::from(k) - 1] {
            self.keys[usize::from(k) - 1] = true;
            self.take_at(place);
        }
    }

    /// Opens a door with the key of its colour.
    fn open_door(&mut self, k: u8, place: Place)
        requires { k < 8 }
        ensures { self.new ≡ door_opened k place self.old }
    {
        if 1 <= k && self.keys[usize::from(k) - 1] {
            self.keys[usize::from(k) - 1] = false;
            self.take_at(place);
        }
    }

    /// Leaves by the passage of a stat.
    fn pass_by(&mut self, i: Option<usize>)
        ensures { self.new ≡ passed_by i self.old }
    {
        if let Some(i) = i {
            if let Some(stat) = self.scene.stat(i) {
                self.leave(stat.p3);
            }
        }
    }

    #[tactic(auto, unfolding(crate::specs::Touch::touched))]
    pub(crate) fn touch_piece(&mut self, piece: Piece, tile: Tile, place: Place, step: Step)
        ensures { self.new ≡ touched piece tile place step self.old }
    {
        match piece {
            Piece::Ammo => {
                give(&mut self.scene, Counter::Ammo, 5);
                self.take_at(place);
            }
            Piece::Gem => {
                give(&mut self.scene, Counter::Gems, 1);
                give(&mut self.scene, Counter::Health, 1);
                give(&mut self.scene, Counter::Score, 10);
                self.take_at(place);
            }
            Piece::Torch => {
                give(&mut self.scene, Counter::Torches, 1);
                self.take_at(place);
            }
            Piece::Energizer => self.take_at(place),
            Piece::Forest => self.take_at(place),
            Piece::Key => self.find_key(tile.colour % 8, place),
            Piece::Door => self.open_door(tile.colour / 16 % 8, place),
            Piece::Invisible => self.scene.put(
                place,
                Tile {
                    element: NORMAL,
                    colour: tile.colour,
                },
            ),
            Piece::Boulder => self.scene.push(place, step),
            Piece::Slider => self.scene.push(place, step),
            Piece::Object => tell(&mut self.scene, b"TOUCH", place),
            Piece::Passage => {
                let i = self.scene.stat_at(place);
                self.pass_by(i);
            }
            Piece::Bear => self.scene.attack(0, place),
            Piece::Lion => self.scene.attack(0, place),
            Piece::Tiger => self.scene.attack(0, place),
            Piece::Bullet => self.scene.attack(0, place),
            Piece::Player => {}
            Piece::Scroll => {}
            Piece::Pusher => {}
            Piece::Other => {}
        }
    }

    /// A stat begins its program anew.
    fn open(&mut self, i: usize)
        ensures { self.new ≡ opened i self.old }
    {
        if let Some(stat) = self.scene.stat(i) {
            let mut changed = stat;
            changed.position = Some(0);
            self.scene.put_stat(i, changed);
        }
    }

    /// Removes the stat whose turn it was, if it still is a scroll.
    fn close(&mut self)
        ensures { self.new ≡ closed self.old }
    {
        let scene = &mut self.scene;
        if let Some(stat) = scene.running_stat() {
            if scene.tile(stat.place).element == SCROLL {
                take_away(scene, scene.running());
            }
        }
    }

    /// The player touches what is at a place, along a step.
    pub(crate) fn touch(
        &mut self,
        alloc: Global,
        place: Place,
        step: Step,
        words: &mut Words,
    ) -> Result<(), SceneError>
        ensures { Answers result (Touches place step self.old words.old) self.new words.new }
    {
        match scroll_at(&self.scene, place) {
            Some(i) => {
                self.open(i);
                self.have_turn(alloc, Voice::Scroll, i, words)?;
                self.close();
                Ok(())
            }
            None => {
                let tile = self.scene.tile(place);
                self.touch_piece(piece_of(tile.element), tile, place, step);
                Ok(())
            }
        }
    }
}
