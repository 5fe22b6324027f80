// What the console says of itself.
use lines::{Console, text};

const START: &str = "Nethazel: a configurator desk for eight clinics. Each sits at a seat, 0 to 7,
chooses options of a product, and sees exactly the options that still fit some
complete product, each with an example. Here the product is the trolley: three
features, 0 to 2, with 3, 3 and 2 options, and two rules (catalogue shows it).

Type for example:
  enter 3          seat 3 comes in, and its search begins
  work 3           the desk makes turns until seat 3 is ready; Ctrl-C stops it
  options 3 1      the options left of feature 1
  choose 3 2 0     seat 3 takes option 0 of feature 2, and is at work again
  work 3           until it is ready
  list 3           what seat 3 can still choose, each feature with an example
  example 3 1 2    the first product with option 2 of feature 1

help lists the rest; quit ends.

";

const HELP: &str = "The desk's fields, set by hand to try what is refused:
  set-next SEAT                    where the next turn begins to look
  set-closed SEAT                  the state of a seat: closed
  set-ready SEAT                   the state of a seat: ready
  set-work SEAT FEATURE OPTION DEPTH NEXT   the state: at work at that place
  set-choice SEAT FEATURE OPTION   one choice; 255 is none
  set-mask SEAT FEATURE MASK       one mask of options left
  set-alternatives SEAT FEATURE MASK        one mask of alternatives
  set-trial SEAT FEATURE OPTION    one entry of the trial; 255 is none
  set-rule SEAT RULE               the rule last run into; 255 is none
  board LENGTH BYTE                a board of so many bytes, all the same
  set-byte PLACE BYTE              one byte of the board
  seat SEAT                        a seat's record
  desk                             next and all eight records
  share SEAT                       the examples on the board
  digest                           one number over desk and board
The catalogue:
  sizes SIZE ...                   how many options each feature has
  rules NUMBER ...                 the rule list, rule by rule: how many
                                   features and rows, the features, the rows
  more NUMBER ...                  the same, added to the end of the list
  catalogue                        features and rules in columns
  numbers                          the same as two lines that can be given back
  trolley                          everything as at the start
The desk:
  open                             a fresh desk: eight seats, all closed
  enter SEAT                       a closed seat comes in
  leave SEAT                       an open seat goes
  work SEAT                        turns until the seat is ready
  turns TURNS                      so many turns, at most 65535
  list SEAT                        what a seat shows, or how far its search is
  ran-into SEAT                    the rule that its search last ran into
  options SEAT FEATURE             the options left of one feature
  example SEAT FEATURE OPTION      the first product with that option
  choose SEAT FEATURE OPTION       a ready seat takes an option that is left
  alternatives SEAT FEATURE        what could replace the choice of one feature
  relax SEAT FEATURE               a ready seat drops its choice
help, quit, exit. What stands after # is a remark. Numbers have blanks or
commas between.
";

// For a person who has just sat down.
pub fn start(console: &Console) {
    text(console, START.as_bytes());
}

pub fn help(console: &Console) {
    text(console, HELP.as_bytes());
}
