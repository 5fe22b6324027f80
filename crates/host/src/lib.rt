// The door for C and Rust hosts: each of the desk's calls, over plain records. A call converts the host's desk, calls
// the desk and converts its answer back; a refused call hands the host's own record back, exactly as it was. Each name ends
// with the number of the door's layout, which goes up by one whenever a record or a call changes: a host that was made for
// another layout finds no such name and is not linked.
// Stays: sizes and rule list are parameters of their own, as the C interface has them.
#![tactic(auto)]

mod answers;
mod convert;
mod records;

ghost use Rattle.std.specs.Prelude.{◌≡◌, take, drop};
ghost use Rattle.builds.specs.Catalogue.{catalogue_of};
ghost use Rattle.runs.specs.declared.Asking.TheVariants.{Enter, Leave, Choose, Relax, Read};
ghost use Rattle.runs.specs.declared.Reading.TheVariants.{Options, Alternatives, Example, RanInto};
ghost use Rattle.runs.specs.Call.{asks, turns};
ghost use Rattle.host.specs.Door.{inside, through_door, opened_door, host_changed_outcome};
ghost use Rattle.host.specs.Door.{host_left_answer, host_ran_answer, host_turned_outcome, example_stands};

use answers::{changed_back, turned_back};
use desk::{Catalogue, Desk};
pub use records::{HostChanged, HostDesk, HostExample, HostLeft, HostRan, HostSeat, HostTurned};

#[unsafe(no_mangle)]
pub extern "C" fn nethazel_open_layout_2(
    board: &mut [u8],
    sizes: &[u8],
    rules: &[u16],
) -> HostChanged
    ensures { host_changed_outcome result board.new
        ≡ opened_door (catalogue_of sizes.now rules.now) board.old }
{
    let catalogue = Catalogue { sizes, rules };
    let opened = desk::open(board, &catalogue);
    let desk = opened.desk;
    HostChanged {
        number: opened.number,
        desk: HostDesk::from(desk),
    }
}

#[unsafe(no_mangle)]
pub extern "C" fn nethazel_enter_layout_2(
    given: HostDesk,
    board: &mut [u8],
    sizes: &[u8],
    rules: &[u16],
    c: usize,
) -> HostChanged
    ensures { host_changed_outcome result board.new
        ≡ through_door (catalogue_of sizes.now rules.now) (asks c Enter)
        given board.old }
{
    let catalogue = Catalogue { sizes, rules };
    let changed = desk::enter(Desk::from(given), board, &catalogue, c);
    changed_back(given, changed)
}

#[unsafe(no_mangle)]
pub extern "C" fn nethazel_leave_layout_2(
    given: HostDesk,
    board: &mut [u8],
    sizes: &[u8],
    rules: &[u16],
    c: usize,
) -> HostChanged
    ensures { host_changed_outcome result board.new
        ≡ through_door (catalogue_of sizes.now rules.now) (asks c Leave)
        given board.old }
{
    let catalogue = Catalogue { sizes, rules };
    let changed = desk::leave(Desk::from(given), board, &catalogue, c);
    changed_back(given, changed)
}

#[unsafe(no_mangle)]
pub extern "C" fn nethazel_choose_layout_2(
    given: HostDesk,
    board: &mut [u8],
    sizes: &[u8],
    rules: &[u16],
    c: usize,
    i: usize,
    a: usize,
) -> HostChanged
    ensures { host_changed_outcome result board.new
        ≡ through_door (catalogue_of sizes.now rules.now) (asks c (Choose i a))
        given board.old }
{
    let catalogue = Catalogue { sizes, rules };
    let changed = desk::choose(Desk::from(given), board, &catalogue, c, i, a);
    changed_back(given, changed)
}

#[unsafe(no_mangle)]
pub extern "C" fn nethazel_relax_layout_2(
    given: HostDesk,
    board: &mut [u8],
    sizes: &[u8],
    rules: &[u16],
    c: usize,
    i: usize,
) -> HostChanged
    ensures { host_changed_outcome result board.new
        ≡ through_door (catalogue_of sizes.now rules.now) (asks c (Relax i))
        given board.old }
{
    let catalogue = Catalogue { sizes, rules };
    let changed = desk::relax(Desk::from(given), board, &catalogue, c, i);
    changed_back(given, changed)
}

#[unsafe(no_mangle)]
pub extern "C" fn nethazel_options_layout_2(
    given: HostDesk,
    board: &[u8],
    sizes: &[u8],
    rules: &[u16],
    c: usize,
    i: usize,
) -> HostLeft
    ensures { host_left_answer result
        ≡ (inside (catalogue_of sizes.now rules.now) (asks c (Read (Options i)))
        given board.now).answer }
{
    let catalogue = Catalogue { sizes, rules };
    HostLeft::from(desk::options(Desk::from(given), board, &catalogue, c, i))
}

#[unsafe(no_mangle)]
pub extern "C" fn nethazel_alternatives_layout_2(
    given: HostDesk,
    board: &[u8],
    sizes: &[u8],
    rules: &[u16],
    c: usize,
    i: usize,
) -> HostLeft
    ensures { host_left_answer result
        ≡ (inside (catalogue_of sizes.now rules.now) (asks c (Read (Alternatives i)))
        given board.now).answer }
{
    let catalogue = Catalogue { sizes, rules };
    HostLeft::from(desk::alternatives(Desk::from(given), board, &catalogue, c, i))
}

// Both of the desk's calls for an example in one: the number, and where the bytes stand that the desk hands out.
#[unsafe(no_mangle)]
pub extern "C" fn nethazel_example_layout_2(
    given: HostDesk,
    board: &[u8],
    sizes: &[u8],
    rules: &[u16],
    c: usize,
    i: usize,
    a: usize,
) -> HostExample
    ensures place { result ≡ example_stands
        (inside (catalogue_of sizes.now rules.now) (asks c (Read (Example i a)))
        given board.now).answer.number c i a }
    ensures bytes { take result.length (drop result.from board.now)
        ≡ (inside (catalogue_of sizes.now rules.now) (asks c (Read (Example i a)))
        given board.now).answer.bytes }
{
    let catalogue = Catalogue { sizes, rules };
    let number = desk::example_number(Desk::from(given), board, &catalogue, c, i, a);
    if number != 0 {
        return HostExample {
            number,
            from: 0,
            length: 0,
        };
    }
    HostExample {
        number: 0,
        from: c * 4096 + i * 256 + a * 16,
        length: 16,
    }
}

#[unsafe(no_mangle)]
pub extern "C" fn nethazel_ran_into_layout_2(
    given: HostDesk,
    board: &[u8],
    sizes: &[u8],
    rules: &[u16],
    c: usize,
) -> HostRan
    ensures { host_ran_answer result
        ≡ (inside (catalogue_of sizes.now rules.now) (asks c (Read RanInto))
        given board.now).answer }
{
    let catalogue = Catalogue { sizes, rules };
    HostRan::from(desk::ran_into(Desk::from(given), board, &catalogue, c))
}

#[unsafe(no_mangle)]
pub extern "C" fn nethazel_turns_layout_2(
    given: HostDesk,
    board: &mut [u8],
    sizes: &[u8],
    rules: &[u16],
    w: u16,
) -> HostTurned
    ensures { host_turned_outcome result board.new
        ≡ through_door (catalogue_of sizes.now rules.now) (turns w) given board.old }
{
    let catalogue = Catalogue { sizes, rules };
    let turned = desk::turns(Desk::from(given), board, &catalogue, w);
    turned_back(given, turned)
}
