// A line's numbers, put into the lent memory.
ghost use Rattle.std.specs.Prelude.{◌≡◌, ◌≤◌, ◌%◌};

use crate::console::Console;

pub fn set_byte(console: &Console, board: &mut [u8], place: u32, value: u32) {
    print!(console; "set\n");
    if let Some(entry) = board.get_mut(place as usize) {
        *entry = byte(value);
    }
}

pub fn fill(board: &mut [u8], length: usize, value: u8) {
    let to = length.min(board.len());
    board[..to].fill(value);
}

// The numbers at the start of the lent sizes; answers how many there are.
pub fn put_sizes(sizes: &mut [u8], numbers: &[u32]) -> usize {
    put(sizes, 0, numbers, byte)
}

// The numbers in the lent rule list from a place on; answers the place after them.
pub fn put_rules(rules: &mut [u16], from: usize, numbers: &[u32]) -> usize {
    put(rules, from, numbers, two_bytes)
}

// Puts numbers into a list from a place on, as many as there is room for; answers the place after them.
fn put<T: Copy, F: Fn(u32) -> T>(list: &mut [T], from: usize, numbers: &[u32], as_entry: F) -> usize
    requires { F.IsAlwaysCallable as_entry }
    ensures { from ≤ result }
{
    let Some(room) = list.get_mut(from..) else {
        return from;
    };
    let count = numbers.len().min(room.len());
    for (entry, number) in room.iter_mut().zip(numbers) {
        *entry = as_entry(*number);
    }
    from + count
}

// A number's low byte. A line's number is no greater where a byte is wanted, `commands::takes` sees to that; it is cut here
// so that no caller has to show it.
// Stays: no plainer by `try_from`, which would have to answer for numbers that don't come.
pub fn byte(n: u32) -> u8
    ensures { result ≡ n % 256 }
{
    (n % 256) as u8
}

// A number's two low bytes, cut for the same reason, and stays so for it.
pub fn two_bytes(n: u32) -> u16
    ensures { result ≡ n % 65536 }
{
    (n % 65536) as u16
}
