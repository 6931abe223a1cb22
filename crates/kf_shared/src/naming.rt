//! Names that say which table of words a tree goes with.

use std::marker::Brand;

/// A name for one table of words, which exists only in proofs. If a function is generic over this name, the
/// proof of each caller says in one line which table is meant. Programs pass [`Brand`].
pub trait Naming {
    ghost use Rattle.kf_words.specs.Callers.{TableId};

    ghost table: { TableId };
}

impl Naming for Brand {
    ghost use Rattle.std.specs.Prelude.{[]};

    ghost table = { record {
      words = 0;
      slots = 0;
      views_name = 0;
      atom = 0;
      block = 0;
      offset = 0;
      slot_names = [];
    } };
}
