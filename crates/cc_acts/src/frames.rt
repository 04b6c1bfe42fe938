// Frames outwards.

ghost use Rattle.std.specs.Prelude.{◌≡◌};
ghost use Rattle.cc_meaning.specs.Store.{frame_up};

use cc_heap::heap::Heap;

/// The frame that is so many steps outwards (ECMA-262 5.1, 10.2.2.1).
pub fn frame_outwards(heap: &Heap, at: Option<usize>, up: u32) -> Option<usize>
    ensures { result ≡ frame_up up heap.now.frames at }
{
    let mut at = at;
    for _ in 0..up {
        let Some(frame) = at else {
            return None;
        };
        at = heap.frame_up(frame);
    }
    at
}
