// The listing program. It reads nothing. On the trolley seat 3 enters, is turned until ready, chooses option 0 of
// feature 2 and is turned again; then it prints a line for each feature: its number, the options left, their count.
#![tactic(auto)]

use desk::Catalogue;
use std::io;

const SIZES: [u8; 3] = [3, 3, 2];
// rule A on features 0, 1: (0,1) (1,0) (1,2) (2,1); rule B on features 1, 2: (0,0) (1,1) (2,0) (2,1)
const RULES: [u16; 24] = [
    2, 4, 0, 1, 0, 1, 1, 0, 1, 2, 2, 1, 2, 4, 1, 2, 0, 0, 1, 1, 2, 0, 2, 1,
];

fn main(rt: HostRuntime) -> io::Result<()> {
    let catalogue = Catalogue {
        sizes: &SIZES,
        rules: &RULES,
    };
    let mut board = [0u8; 32768];
    let opened = desk::open(&mut board, &catalogue);
    let entered = desk::enter(opened.desk, &mut board, &catalogue, 3);
    let ready = desk::turns(entered.desk, &mut board, &catalogue, 65535);
    let chosen = desk::choose(ready.desk, &mut board, &catalogue, 3, 2, 0);
    let again = desk::turns(chosen.desk, &mut board, &catalogue, 65535);
    for i in 0..SIZES.len() {
        let left = desk::options(again.desk, &board, &catalogue, 3, i);
        print!(rt; "{i} ")?;
        print_options(&rt, left.mask)?;
        println!(rt; " {}", left.count)?;
    }
    Ok(())
}

// The options of a mask joined by commas, "-" if none. Each print is one write: what comes before one that fails is there.
fn print_options(rt: &impl Print, mask: u16) -> io::Result<()> {
    if mask == 0 {
        return print!(rt; "-");
    }
    let first = mask.trailing_zeros();
    for a in (first..16).filter(|a| mask >> *a & 1 == 1) {
        if a != first {
            print!(rt; ",")?;
        }
        print!(rt; "{a}")?;
    }
    Ok(())
}
