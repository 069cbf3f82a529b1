// Scans of a room's loads, hour by hour.
ghost use Rattle.std.specs.Prelude.{false, ◌≡◌, ℕ, ◌≤◌, ◌<◌, ltb, length, get_or};
ghost use Rattle.units.specs.Choice.{some_if, first_of};
ghost use Rattle.units.specs.Sums.{max_to};
ghost use Rattle.turns.specs.Inner.Kept.{exceeds};

use calendar::Window;
use units::Height;

// The greatest of the loads. It goes through all of them, so that the compiler takes several at a time.
fn greatest(loads: &[u16]) -> Height
    ensures { result.0 ≡ max_to (λ t. get_or loads.now t 0) (length loads.now) }
{
    let mut most: u16 = 0;
    for load in loads {
        most = most.max(*load);
    }
    Height(most)
}

// The first of the loads that is above the limit. Where none is, as mostly, the greatest says so sooner than a search that may end at each.
pub fn first_above(loads: &[u16], limit: Height) -> Option<usize>
    ensures { result ≡ first_of (λ t. some_if (ltb limit.0 (get_or loads.now t 0)) t) (length loads.now) }
{
    if greatest(loads) <= limit {
        return None;
    }
    loads.iter().position(|load| Height(*load) > limit)
}

// Of the hours from one to before another, the first whose load is above the limit, or the end.
fn pass_stretch(loads: &[u16], from: usize, end: usize, limit: Height) -> usize
    requires { (from ≤ end) × (end ≤ length loads.now) }
    ensures { (from ≤ result) × (result ≤ end) × ((t : ℕ) → from ≤ t → t < result → get_or loads.now t 0 ≤ limit.0) }
{
    match first_above(&loads[from..end], limit) {
        Some(n) => from + n,
        None => end,
    }
}

// The hour up to which the hours from one to before another can be passed over: a task of the height with the window does not exceed the room's
// capacity in them. In the hours of its compulsory part it is in the load already.
pub fn pass_room(
    loads: &[u16],
    w: Window,
    height: Height,
    capacity: Height,
    from: usize,
    end: usize,
) -> usize
    requires { (from ≤ end) × (end ≤ length loads.now) }
    ensures { (from ≤ result) × (result ≤ end)
        × ((t : ℕ) → from ≤ t → t < result → exceeds w height.0 (get_or loads.now t 0) capacity.0 t ≡ false) }
{
    if capacity < height {
        return from;
    }
    let others = Height(capacity.0 - height.0);
    let part = end.min(w.bounds.latest.0 as usize).max(from);
    let after = end.min(w.ect.0 as usize).max(part);
    let passed = pass_stretch(loads, from, part, others);
    if passed < part {
        return passed;
    }
    let passed = pass_stretch(loads, part, after, capacity);
    if passed < after {
        return passed;
    }
    pass_stretch(loads, after, end, others)
}
