//! The table of the policies.

ghost use Rattle.std.specs.Prelude.{◌≡◌, IfOk, IfErr, Ok};
ghost use Rattle.toml.specs.View.{table_view};
ghost use Rattle.input_book.specs.Ranges.{action_of, seconds_to};
ghost use Rattle.input_book.specs.Readers.{optional, table_of, text_of};
ghost use Rattle.input_book.specs.Refusals.{IsRefusal};
ghost use Rattle.input_book.specs.Tables.{default_policy, policy_of, seconds_at};

use crate::InputErr;
use crate::key::Key;
use crate::limits::{
    DEFAULT_DISORDER, DEFAULT_LATE, DEFAULT_SKEW, MAX_DISORDER, MAX_LATE, MAX_SKEW,
};
use crate::members::{member_of, only};
use crate::parts::{FromTable, part_at};
use crate::refusals::ranged;
use crate::shapes::{number_in, text_in};
use event_value::Policy;
use std::alloc::Global;
use toml::Table;

const SECOND: i64 = 10_000_000;

fn default_policy() -> Policy
    ensures { result ≡ default_policy }
{
    Policy {
        late: DEFAULT_LATE * SECOND,
        disorder: DEFAULT_DISORDER * SECOND,
        adjust: true,
        skew: DEFAULT_SKEW * SECOND,
    }
}

fn seconds_to(most: u32, seconds: i64) -> Option<i64>
    ensures { result ≡ seconds_to most seconds }
{
    if (0..=most as i64).contains(&seconds) {
        Some(seconds * SECOND)
    } else {
        None
    }
}

fn seconds_at(
    alloc: Global,
    table: &Table,
    key: &str,
    default: i64,
    most: u32,
) -> Result<i64, InputErr>
    ensures ok { IfOk result (λ ticks.
        seconds_at key.now default most (table_view table.now) ≡ Ok ticks) }
    ensures err { IfErr result (IsRefusal
        (seconds_at key.now default most (table_view table.now))) }
{
    match member_of(table, key) {
        None => Ok(default),
        Some(value) => {
            let seconds = number_in(alloc, Key::Member(key), value)?;
            ranged(alloc, Key::Member(key), seconds_to(most, seconds))
        }
    }
}

fn action_of(word: &str) -> Option<bool>
    ensures { result ≡ action_of word.now }
{
    if word == "adjust" {
        Some(true)
    } else if word == "drop" {
        Some(false)
    } else {
        None
    }
}

// Whether records are adjusted, by the action at a key.
fn action_at(alloc: Global, table: &Table, key: &str, default: bool) -> Result<bool, InputErr>
    ensures ok { IfOk result (λ adjust.
        optional key.now default (text_of action_of) (table_view table.now) ≡ Ok adjust) }
    ensures err { IfErr result (IsRefusal
        (optional key.now default (text_of action_of) (table_view table.now))) }
{
    match member_of(table, key) {
        None => Ok(default),
        Some(value) => {
            let word = text_in(alloc, Key::Member(key), value)?;
            ranged(alloc, Key::Member(key), action_of(word))
        }
    }
}

impl FromTable for Policy {
    ghost read_as = { policy_of };

    #[tactic(auto, unfolding(crate::specs::Tables::policy_of))]
    fn from_table(alloc: Global, table: &Table) -> Result<Self, InputErr> {
        let keys = ["late_seconds", "disorder_seconds", "action", "skew_seconds"];
        only(alloc, &keys, table)?;
        let default = default_policy();
        let late = seconds_at(alloc, table, "late_seconds", default.late, MAX_LATE)?;
        let disorder = seconds_at(
            alloc,
            table,
            "disorder_seconds",
            default.disorder,
            MAX_DISORDER,
        )?;
        let adjust = action_at(alloc, table, "action", default.adjust)?;
        let skew = seconds_at(alloc, table, "skew_seconds", default.skew, MAX_SKEW)?;
        Ok(Policy {
            late,
            disorder,
            adjust,
            skew,
        })
    }
}

// The policies of a document, from its root table.
pub fn policy_at(alloc: Global, root: &Table, key: &str) -> Result<Policy, InputErr>
    ensures ok { IfOk result (λ policy.
        optional key.now default_policy (table_of policy_of) (table_view root.now) ≡ Ok policy) }
    ensures err { IfErr result (IsRefusal
        (optional key.now default_policy (table_of policy_of) (table_view root.now))) }
{
    match member_of(root, key) {
        None => Ok(default_policy()),
        Some(value) => part_at(alloc, Key::Member(key), value),
    }
}
