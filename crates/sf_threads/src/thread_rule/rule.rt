//! The rule, and what each step tells the seat that does it.

use crate::thread_rule::view::{Key, View};
use atomic_table::{Join, Play, Split, TableRule};

/// The asks that were done replay, and each seat knows those of its ranks.
pub struct RoundRule;

impl TableRule<(), View, Key> for RoundRule {
    ghost use Rattle.sf_threads.specs.thread_rule.Rule.{Kept, everyone};

    ghost holds = { Kept };

    ghost first = { everyone };
}

/// A load of a word.
pub struct Loads;

impl Play<(), View> for Loads {
    ghost use Rattle.sf_defs.specs.declared.Op.TheVariants.{Load};
    ghost use Rattle.sf_threads.specs.thread_rule.Rule.{Does};

    ghost then = { Does Load };
}

/// An addition.
pub struct Sums;

impl Play<(), View> for Sums {
    ghost use Rattle.sf_defs.specs.declared.Op.TheVariants.{Sum};
    ghost use Rattle.sf_threads.specs.thread_rule.Rule.{Does};

    ghost then = { Does Sum };
}

/// A minimum.
pub struct Mins;

impl Play<(), View> for Mins {
    ghost use Rattle.sf_defs.specs.declared.Op.TheVariants.{Min};
    ghost use Rattle.sf_threads.specs.thread_rule.Rule.{Does};

    ghost then = { Does Min };
}

/// A maximum.
pub struct Maxes;

impl Play<(), View> for Maxes {
    ghost use Rattle.sf_defs.specs.declared.Op.TheVariants.{Max};
    ghost use Rattle.sf_threads.specs.thread_rule.Rule.{Does};

    ghost then = { Does Max };
}

/// A bitwise or.
pub struct Ors;

impl Play<(), View> for Ors {
    ghost use Rattle.sf_defs.specs.declared.Op.TheVariants.{Or};
    ghost use Rattle.sf_threads.specs.thread_rule.Rule.{Does};

    ghost then = { Does Or };
}

/// A bitwise and.
pub struct Ands;

impl Play<(), View> for Ands {
    ghost use Rattle.sf_defs.specs.declared.Op.TheVariants.{And};
    ghost use Rattle.sf_threads.specs.thread_rule.Rule.{Does};

    ghost then = { Does And };
}

/// A value in a word's place.
pub struct Replaces;

impl Play<(), View> for Replaces {
    ghost use Rattle.sf_defs.specs.declared.Op.TheVariants.{Replace};
    ghost use Rattle.sf_threads.specs.thread_rule.Rule.{Does};

    ghost then = { Does Replace };
}

/// The first rank of a seat, and the others.
pub struct Halves;

impl Split<View> for Halves {
    ghost use Rattle.sf_threads.specs.thread_rule.Rule.{first_of, others_of};

    ghost left = { first_of };

    ghost right = { others_of };
}

/// The ranks of two seats, where those of the second one follow.
pub struct Joined;

impl Join<View> for Joined {
    ghost use Rattle.sf_threads.specs.thread_rule.Rule.{joined, nobody};

    ghost both = { joined };

    ghost spent = { nobody };
}
