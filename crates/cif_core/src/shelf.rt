// The frames that the core keeps.
ghost use Rattle.std.specs.Prelude.{◌≡◌, ◌-◌, ◌∷◌, ◌++◌, ◌<◌, [], IfOk, length, drop, slice_index_or};

use cif_bits::NoMemory;
use cif_seq::Frame;
use std::alloc::Global;
use std::collections::VecDeque;
use std::marker::Model;
use std::sync::Arc;

/// Frames in order, with room for so many. Contracts see what they are.
#[derive(Drop)]
pub struct Shelf {
    frames: VecDeque<Arc<Frame>>,
    room: u64,
}

impl Model for Shelf {
    ghost use Rattle.std.specs.Prelude.{map, ◌≤◌};
    ghost use Rattle.std.specs.VecDeque.{deque_capacity};
    ghost use Rattle.cif_core.specs.Frames.{ShelfOf};

    ghost Value = { ShelfOf };

    ghost view = { λ s. record { frames = map (λ f. f.value) s.frames.items; room = s.room } };

    ghost invariant = { λ s. s.room ≤ deque_capacity s.frames };
}

impl Shelf {
    /// No frames, and room for so many.
    pub fn new(alloc: Global, room: u64) -> Result<Shelf, NoMemory>
        ensures frames { IfOk result (λ s. s.frames ≡ []) }
        ensures room { IfOk result (λ s. s.room ≡ room) }
    {
        let frames = VecDeque::with_capacity(alloc, room as usize)?;
        Ok(Shelf { frames, room })
    }

    /// The number of frames.
    pub fn len(&self) -> u64
        ensures { result ≡ length self.now.frames }
    {
        self.frames.len() as u64
    }

    /// Adds a frame at the end. It takes no memory.
    pub fn push(&mut self, frame: Arc<Frame>)
        requires { length self.old.frames < self.old.room }
        ensures frames { self.new.frames ≡ self.old.frames ++ frame.value ∷ [] }
        ensures room { self.new.room ≡ self.old.room }
    {
        self.frames.push_back_reserved(frame);
    }

    /// Drops the first frame.
    fn drop_first(&mut self)
        ensures frames { self.new.frames ≡ drop 1 self.old.frames }
        ensures room { self.new.room ≡ self.old.room }
    {
        let _ = self.frames.pop_front();
    }

    /// One more handle on the frame at a place.
    pub fn get(&self, at: u64) -> Result<Arc<Frame>, NoMemory>
        requires { at < length self.now.frames }
        ensures { IfOk result (λ f. f.value ≡ slice_index_or self.now.frames at f.value) }
    {
        match self.frames.get(at as usize) {
            Some(frame) => Ok(Arc::try_clone(frame)?),
            None => unreachable!(),
        }
    }
}

/// Drops the first frames until no more than `count` are left.
pub fn keep_last(shelf: &mut Shelf, count: u64)
    ensures frames { shelf.new.frames ≡ drop (length shelf.old.frames - count) shelf.old.frames }
    ensures room { shelf.new.room ≡ shelf.old.room }
{
    for _frame in count..shelf.len() {
        shelf.drop_first();
    }
}
