// Where trees lie in a store, and what its words then are. The crate is definitions and their laws, each of which a function stands for,
// and the few numbers of the layout that code needs.
#![tactic(auto)]

ghost use Rattle.layout.specs.Determined.{Determined};
ghost use Rattle.layout.specs.Figures.{Figures};
ghost use Rattle.layout.specs.Lawful.{Lawful};
ghost use Rattle.layout.specs.Refines.{Refines};

pub use booking::NAMES;

/// The first address behind the header and the codewords of the names, which stand from address 1 on.
pub const FIRST: u64 = 1 + NAMES;

/// The fewest words that a keeper can be made over: those before the first address, and a block of one word with its back-reference.
pub const LEAST: u64 = FIRST + 2;

/// How many blocks can lie one below the other.
pub const LEVELS: u8 = 4;

/// A sound arrangement has one list of words, and words that hold together have one arrangement.
pub fn words_tell_the_arrangement()
    ensures { Determined }
{}

/// On arrangements, each booking is the plain ledger's booking on the trees.
pub fn bookings_are_the_ledgers()
    ensures { Refines }
{}

/// On words that hold together, so is each call; and the total is the free words.
pub fn calls_are_the_ledgers()
    ensures { Lawful }
{}

/// The worked figures.
pub fn figures_stand()
    ensures { Figures }
{}
