//! The judge: whether a plan passes with a certificate, for any source and any kind of priority.
//!
//! What passing means, and why a plan that passes is best, stands in the crate `matching`; the judge's
//! answer is equated with its test `passes`. The rules are read once for the programmes and once, by
//! the same code, for the slots: on the view with its sides exchanged.
#![tactic(auto)]

ghost use Rattle.std.specs.Prelude.{◌≡◌, true, length, IfOk};
ghost use Rattle.refusal.specs.Refusals.{refusal_of, first_refusal};
ghost use Rattle.matching.specs.Board.{Best};
ghost use Rattle.matching.specs.Check.{passes as passing};
ghost use Rattle.matching.specs.Lists.{plan_of, certificate_of};
ghost use Rattle.plan.specs.Held.{held};
ghost use Rattle.plan.specs.Parts.{ranked, board_with};
ghost use Rattle.judge.specs.Handed.{all_fit_with, judge_refusals_with, shown, Fit};
ghost use Rattle.judge.specs.Tests.{verdict};

mod rules;
mod view;

use crate::view::{Side, View};
use plan::Plan;
use plan::parts::Parts;
use priority::Priority;
use refusal::Refusal;
use source::PairSource;
use source::turned::Turned;

/// Whether what is in view passes with these names: the plan is lawful, the programmes keep the rules,
/// and so do the slots.
fn is_passed<S: PairSource, P: Priority + Copy>(
    view: &View<S, P>,
    programme_names: &[u16],
    slot_names: &[u16],
) -> bool
    requires { Fit (shown S.PairSource.pairs view.now) }
    ensures { result ≡ verdict P.Priority.reaches (shown S.PairSource.pairs view.now) programme_names.now slot_names.now }
{
    let turned = View {
        source: &Turned(view.source),
        programmes: view.slots,
        slots: view.programmes,
    };
    view.is_lawful() && view.keeps_rules(programme_names) && turned.keeps_rules(slot_names)
}

/// Whether source, rankings, plan and certificate fit together.
fn all_fit<S: PairSource, P: Priority + Copy>(
    plan: &Plan,
    parts: &Parts<S, P>,
    certificate: &[u16],
) -> bool
    ensures { result ≡ all_fit_with S.PairSource.pairs parts.now (held plan.now) certificate.now }
{
    let programmes = parts.source.programmes() as usize;
    let slots = parts.source.slots() as usize;
    plan.fits(parts) && certificate.len() == programmes + slots
}

/// Whether the plan passes with the certificate: one entry for each programme, then one for each slot.
/// Refuses 12 where source, rankings, plan and certificate do not fit together.
pub fn judge<S: PairSource, P: Priority + Copy>(
    plan: &Plan,
    parts: &Parts<S, P>,
    certificate: &[u16],
) -> Result<bool, Refusal>
    ensures answer { refusal_of result ≡ first_refusal (judge_refusals_with S.PairSource.pairs parts.now (held plan.now) certificate.now) }
    ensures passes { IfOk result (λ passed. passed ≡ passing (board_with P.Priority.reaches S.PairSource.pairs parts.now (held plan.now)) (plan_of (held plan.now).slot_of) (certificate_of (length (ranked parts.now.programmes.now)) certificate.now)) }
    ensures best { IfOk result (λ passed. passed ≡ true → Best (board_with P.Priority.reaches S.PairSource.pairs parts.now (held plan.now)) (plan_of (held plan.now).slot_of)) }
{
    if !all_fit(plan, parts, certificate) {
        return Err(Refusal::Mismatch);
    }
    let view = View {
        source: parts.source,
        programmes: Side {
            priorities: parts.programmes.as_slice(),
            places: plan.slot_of_table(),
            present: plan.programmes_present(),
        },
        slots: Side {
            priorities: parts.slots.as_slice(),
            places: plan.programme_in_table(),
            present: plan.slots_present(),
        },
    };
    let (programme_names, slot_names) = certificate.split_at(parts.programmes.len());
    Ok(is_passed(&view, programme_names, slot_names))
}
