//! Rules that meet, and where.

ghost use Rattle.std.specs.Prelude.{◌≡◌, ◌<◌, ◌≤◌, ◌^◌, ℕ, List, length, IfOk, IfErr};
ghost use Rattle.std.specs.List.{Contains};
ghost use Rattle.model_tree.specs.Limits.{most_classes};
ghost use Rattle.model_meaning.specs.Reached.{Reaches};
ghost use Rattle.fast_build.specs.Items.{items_of};
ghost use Rattle.fast_compose.specs.Meetings.{IsMeetingFor, graver_of, is_at, IsMet, StopsMeeting};
ghost use Rattle.fast_compose.specs.declared.meetings.Met.TheVariants as met;

use crate::stops::Meeting;
use fast_build::{trans, transformation};
use fast_fault::{Memory, Text};
use fast_tree::Label;
use indexmap::IndexSet;
use lin_solve::Chain;
use program_check::Checked;
use record_label::RowLabels;
use sta_classes::ClassStop;
use std::alloc::Global;
use sttr_single::{OverlapFound, overlap};

/// What is known of rules of transformations with different terms: no two of one transformation apply to one tree, two do, or
/// two do but only to trees that are too large.
#[derive(Drop)]
pub enum Met {
    Nowhere,
    At(Meeting),
    TooLarge,
}

/// The meeting, with names in place of numbers.
fn shown(
    alloc: Global,
    names: &IndexSet<Text>,
    of: &Text,
    meeting: sttr_single::Meeting<Label>,
) -> Result<Met, Memory>
    requires state { meeting.state < length names.now.keys }
    requires rules { meeting.first < 2 ^ 32 × meeting.second < 2 ^ 32 }
    ensures { IfOk result (λ m. (own : _) × (m ≡ met.At own) × IsMeetingFor names.now.keys of.now meeting own) }
{
    Ok(Met::At(Meeting {
        name: names.as_slice()[meeting.state as usize].copy(alloc)?,
        first: meeting.first as u32,
        second: meeting.second as u32,
        of: of.copy(alloc)?,
        tree: meeting.tree,
    }))
}

/// Whether rules of a transformation that the name reaches meet, and where.
fn met_by(
    alloc: Global,
    checked: &Checked,
    limit: u32,
    name: &Text,
) -> Result<Met, ClassStop<Chain>>
    requires shallow { limit ≤ most_classes }
    ensures met { IfOk result (IsMet (items_of checked.now) (Reaches (items_of checked.now) name.now)) }
    ensures stop { IfErr result (StopsMeeting (items_of checked.now) name.now limit) }
{
    let Some(own) = trans(checked, name) else {
        return Ok(Met::Nowhere);
    };
    let Some(signature) = checked.signature(&own.from.text) else {
        unreachable!()
    };
    let theory = RowLabels::new(alloc, signature)?;
    let built = transformation(alloc, checked, name)?;
    match overlap(&theory, alloc, &built.trans.sttr, limit)? {
        OverlapFound::Plain => Ok(Met::Nowhere),
        OverlapFound::Meets(meeting) => Ok(shown(alloc, &built.names, &own.from.text, meeting)?),
        OverlapFound::TooBig => Ok(Met::TooLarge),
    }
}

/// What two together show: a meeting, else trees that are too large.
fn graver(found: Met, other: Met) -> Met
    ensures { result ≡ graver_of found other }
{
    match found {
        Met::At(meeting) => Met::At(meeting),
        Met::Nowhere => other,
        Met::TooLarge => match other {
            Met::At(meeting) => Met::At(meeting),
            Met::Nowhere | Met::TooLarge => Met::TooLarge,
        },
    }
}

fn is_shown(found: &Met) -> bool
    ensures { result ≡ is_at found.now }
{
    match found {
        Met::At(_) => true,
        Met::Nowhere | Met::TooLarge => false,
    }
}

/// The same of all that one of these names reaches.
pub fn met_by_all(
    alloc: Global,
    checked: &Checked,
    limit: u32,
    names: &IndexSet<Text>,
) -> Result<Met, ClassStop<Chain>>
    requires shallow { limit ≤ most_classes }
    ensures met { IfOk result (IsMet (items_of checked.now) (λ q. (n : List ℕ) × Contains names.now.keys n × Reaches (items_of checked.now) n q)) }
    ensures stop { IfErr result (λ s. (n : List ℕ) × Contains names.now.keys n × StopsMeeting (items_of checked.now) n limit s) }
{
    let mut found = Met::Nowhere;
    'names: for name in names.as_slice() {
        let other = met_by(alloc, checked, limit, name)?;
        found = graver(found, other);
        if is_shown(&found) {
            return Ok(found);
        }
    }
    Ok(found)
}
