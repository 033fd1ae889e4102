// Many numbers at once, over any line.
ghost use Rattle.std.specs.Prelude.{◌≡◌, ◌++◌, length, take, drop};
ghost use Rattle.line.specs.Transfers.{accepted_count, removed_count};

use crate::interface::Line;

// Feeds numbers in their order until one is refused, and says how many were accepted.
pub fn feed_all<L: Line>(line: &mut L, numbers: &[i32]) -> usize
    ensures count { result ≡ accepted_count L.Line.max_readings (L.Line.readings line.old) (length numbers.now) }
    ensures readings { L.Line.readings line.new ≡ L.Line.readings line.old ++ take result numbers.now }
    ensures sends { L.Line.sends line.new ≡ L.Line.sends line.old }
{
    for (i, number) in numbers.iter().enumerate() {
        if line.feed(*number).is_err() {
            return i;
        }
    }
    numbers.len()
}

// Removes readings, writes them in their order until none waits or there is no place for one, and says how many there were.
pub fn next_all<L: Line>(line: &mut L, places: &mut [i32]) -> usize
    ensures count { result ≡ removed_count (L.Line.readings line.old) (length places.old) }
    ensures places { places.new ≡ take result (L.Line.readings line.old) ++ drop result places.old }
    ensures readings { L.Line.readings line.new ≡ drop result (L.Line.readings line.old) }
    ensures sends { L.Line.sends line.new ≡ L.Line.sends line.old }
{
    for (count, place) in places.iter_mut().enumerate() {
        let Some(number) = line.next() else {
            return count;
        };
        *place = number;
    }
    places.len()
}
