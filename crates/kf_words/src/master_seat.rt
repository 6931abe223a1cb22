//! The Master's seat at the table of words.
ghost use Rattle.std.specs.Prelude.{◌≡◌, ◌*◌, ◌≤◌, [], length};
ghost use Rattle.std.specs.Arc.{arc_value};
ghost use Rattle.kf_words.specs.Layout.{line_words};
ghost use Rattle.kf_words.specs.Steps.{master_of, plain};
ghost use Rattle.kf_words.specs.declared.view.View.TheVariants as seat_of;

use crate::master_token::MasterToken;
use crate::table::WordTable;
use std::sync::Arc;

/// The seat of the Master at the table of words.
#[derive(Drop)]
pub(crate) struct MasterSeat {
    pub(crate) table: Arc<WordTable>,
    pub(crate) token: MasterToken,
    /// The greatest number of holds of a slot.
    pub(crate) most: u32,
    ghost of_table: { token.table_id ≡ (arc_value table).shared.table_id },
    ghost a_master: { plain token.me ≡ (seat_of.Master (master_of token.me.0.view), []) },
    ghost lines: { (arc_value table).shared.table_id.words
        ≡ (arc_value table).shared.key.slots * line_words },
    ghost limit: { (arc_value table).shared.key.holds ≡ most },
    ghost few: { most ≤ 65535 },
    ghost all_slots: { length (master_of token.me.0.view).slots ≡ (arc_value table).shared.key.slots },
}
