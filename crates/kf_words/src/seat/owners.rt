//! An owner of the table of words, which is taken from one seat and given to the next.
ghost use Rattle.std.specs.Prelude.{◌≡◌, ◌<◌, None, [], IfOk};
ghost use Rattle.kf_core.specs.declared.caller.Phase.TheVariants as phase_of;
ghost use Rattle.kf_words.specs.Callers.{handle_of, view_of};
ghost use Rattle.kf_words.specs.Layout.{hold_index};
ghost use Rattle.kf_words.specs.Steps.{caller_of, plain};
ghost use Rattle.kf_words.specs.Makers.{owned_table};
ghost use Rattle.kf_words.specs.declared.view.View.TheVariants as seat_of;

use crate::seat::{CallerSeat, Owner};
use crate::sight::Sight;
use atomic_table::Seat;
use kf_core::{Key, Node};
use std::alloc::AllocError;
use std::sync::Arc;

impl Owner {
    /// Makes the first seat of a new hold, with this owner.
    pub(crate) fn seat(self, key: Key, node: Node, token: Seat<(), Sight>) -> CallerSeat
        requires table { token.table_id ≡ owned_table self }
        requires caller { plain token.me ≡ (seat_of.Caller (caller_of token.me.0.view), []) }
        requires key { (caller_of token.me.0.view).key ≡ key }
        requires slot { hold_index key.slot < (owned_table self).words }
        requires single { (caller_of token.me.0.view).pinning ≡ None }
        ensures token { result.token ≡ token }
        ensures node { (handle_of result).node ≡ node }
    {
        let Owner { table, most } = self;
        CallerSeat::new(table, key, node, most, token)
    }
}

impl CallerSeat {
    /// Makes one more owner of the seat's table.
    pub(crate) fn owner(&self) -> Result<Owner, AllocError>
        ensures { IfOk result (λ owner. owned_table owner ≡ self.now.token.table_id) }
    {
        Ok(Owner {
            table: Arc::try_clone(&self.table)?,
            most: self.most,
        })
    }

    /// Ends the seat and returns its owner. A seat ends in no other way, and only after its hold was
    /// released: the view says Spent only after the step of `release_seat`.
    pub(crate) fn end_to_owner(self) -> Owner
        requires { (view_of self).phase ≡ phase_of.Spent }
        ensures { owned_table result ≡ self.token.table_id }
    {
        let CallerSeat {
            table,
            key: _,
            kind: _,
            most,
            tag: _,
            target: _,
            token: _,
        } = self;
        Owner { table, most }
    }
}
