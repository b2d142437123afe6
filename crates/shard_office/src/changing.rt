// A change at one shard, by a seat there and a seat at the register.
ghost use Rattle.std.specs.Prelude.{◌≡◌, ◌-◌, ◌≤◌, ◌++◌, ◌∷◌, [], length, Some, slice_get, IfOk, OnOk, OnErr, IfErr};
ghost use Rattle.turn_lock.specs.Sights.{KnowsOwn};
ghost use Rattle.batch_core.specs.Book.{batch_of, reply, empty};
ghost use Rattle.batch_core.specs.Histories.{after_all, IsLegal};
ghost use Rattle.batch_core.specs.Lawful.{IsLawful};
ghost use Rattle.batch_core.specs.Shards.{shard_of};
ghost use Rattle.call_register.specs.Marks.{marks_of};
ghost use Rattle.call_register.specs.declared.mark.Mark.TheVariants.{Shard};
ghost use Rattle.shard_office.specs.Names.{change_entry, shard_name};
ghost use Rattle.shard_office.specs.Office.{ties_at};
ghost use Rattle.shard_office.specs.Owners.{owner_of_entry, owner_of_mark};
ghost use Rattle.shard_office.specs.Passes.{IsAtShard, IsAtRegister};
ghost use Rattle.shard_office.specs.Moves.{Looked, Gave};

use crate::asked::Asked;
use crate::call_back::CallBack;
use crate::entering::enter;
use crate::office::Office;
use crate::register_value::RegisterValue;
use crate::shard_value::ShardValue;
use batch_core::Reply;
use byte_edge::{Gate, Place};
use number_tie::Tie;
use std::sync::Wait;
use turn_lock::Seat;

/// Marks a change under the turns of its shard and of the register, and answers it under that of its shard
/// alone. The shard's turn is held from before the mark until the entry is there, so whoever has it finds as
/// many entries as marks; that the register's is given back first is no clause. After want of memory the
/// change comes back, and neither seat gave anything.
pub(crate) fn answer<R: Wait, G: Gate>(
    rt: &R,
    gate: &G,
    office: &Office,
    mine: &mut Seat<ShardValue>,
    marks: &mut Seat<RegisterValue>,
    asked: Asked,
) -> Result<Reply, CallBack>
    requires number { (1 ≤ asked.shard) × (asked.shard ≤ office.now.shards) }
    requires shard { IsAtShard office.now asked.caller (asked.shard - 1) mine.old }
    requires register { IsAtRegister office.now asked.caller marks.old }
    requires lawful { IsLawful office.now.candidates asked.change }
    requires of_shard { shard_of (batch_of asked.change) office.now.shards ≡ asked.shard }
    ensures own { KnowsOwn owner_of_entry mine.new × KnowsOwn owner_of_mark marks.new }
    ensures entry { IfOk result (λ answer. Gave mine.old mine.new (change_entry asked.caller asked.change answer)) }
    ensures mark { OnOk result (Gave marks.old marks.new (Shard asked.shard)) }
    ensures whole { OnOk result (marks_of asked.shard marks.new.seen ≡ length mine.new.seen) }
    ensures legal { OnOk result (IsLegal mine.new.seen) }
    ensures handed_back { IfErr result (λ back. back.change ≡ asked.change) }
    ensures refused { OnErr result (Looked mine.old mine.new × Looked marks.old marks.new) }
{
    let window = &office.windows[asked.shard as usize - 1];
    let mut held = window.lock.take(rt, mine);
    match answer_in_turn(
        rt,
        gate,
        office,
        held.value_mut(),
        &window.tie,
        marks,
        asked,
    ) {
        Ok(reply) => {
            held.value().vouch();
            window.lock.give_with(mine, held);
            Ok(reply)
        }
        Err(back) => {
            window.lock.give_back(mine, held);
            Err(back)
        }
    }
}

/// What is done while the shard's turn is held: makes room for the entry and for the mark, and then enters
/// both.
fn answer_in_turn<R: Wait, G: Gate>(
    rt: &R,
    gate: &G,
    office: &Office,
    shard: &mut ShardValue,
    tie: &Tie,
    marks: &mut Seat<RegisterValue>,
    asked: Asked,
) -> Result<Reply, CallBack>
    requires number { (1 ≤ asked.shard) × (asked.shard ≤ office.now.shards) }
    requires name { shard_name shard.old ≡ record { shard = asked.shard; shards = office.now.shards; candidates = office.now.candidates; tie = tie.now } }
    requires tie { slice_get (ties_at office.now.identity.windows) (asked.shard - 1) ≡ Some tie.now }
    requires register { IsAtRegister office.now asked.caller marks.old }
    requires lawful { IsLawful office.now.candidates asked.change }
    requires of_shard { shard_of (batch_of asked.change) office.now.shards ≡ asked.shard }
    ensures name { shard_name shard.new ≡ shard_name shard.old }
    ensures entry { IfOk result (λ answer. shard.new.book.entries ≡ shard.old.book.entries ++ change_entry asked.caller asked.change answer ∷ []) }
    ensures mark { OnOk result (Gave marks.old marks.new (Shard asked.shard)) }
    ensures whole { OnOk result (marks_of asked.shard marks.new.seen ≡ length shard.new.book.entries) }
    ensures own { KnowsOwn owner_of_mark marks.new }
    ensures handed_back { IfErr result (λ back. back.change ≡ asked.change) }
    ensures unchanged { OnErr result (shard.new.book.entries ≡ shard.old.book.entries) }
    ensures refused { OnErr result (Looked marks.old marks.new) }
{
    if shard.ready(&asked.change).is_err() {
        return Err(CallBack {
            change: asked.change,
        });
    }
    gate.pass(Place::InTurn(asked.shard));
    let mut kept = office.register.take(rt, marks);
    if kept.value_mut().reserve().is_err() {
        office.register.give_back(marks, kept);
        return Err(CallBack {
            change: asked.change,
        });
    }
    Ok(enter(shard, &office.register, marks, kept, tie, asked))
}
