//! `Session`, the window of rows that follow each other closely.

ghost use Rattle.std.specs.Prelude.{◌≡◌, ◌≤◌, ◌+◌, ◌++◌, true, OnOk, None, min};
ghost use Rattle.stream_op.specs.Rows.{between};
ghost use Rattle.tick_time.specs.Moment.{end_ticks};
ghost use Rattle.tick_time.specs.Span.{max_span_ticks};
ghost use Rattle.window_flow.specs.SessionLaws.{session-sound};
ghost use Rattle.window_flow.specs.Sessions.{latest_end, most_of, rows_of_session, session_fits};
ghost use Rattle.window_flow.specs.Sessions.{session_at, session_parting, timeout_of};

use crate::groups::Groups;
use crate::{Parted, Parts};
use event_value::{Aggregate, Copies, Memory, Seq, Stamped, Value};
use std::alloc::Global;
use tick_time::{Moment, Span};

/// A session window: in each part, rows that come at most the timeout after the one before are one
/// session, up to the least multiple of the maximum that is at least the session's start plus the
/// maximum. A session gives a row for each key, at its end.
pub type Session = Parted<SessionSpec>;

/// What a session window is begun with. The timeout is to be at least 0, the maximum above 0.
#[derive(Drop)]
pub struct SessionSpec {
    /// How long after its last row a session ends.
    pub timeout: Span,
    /// At the multiples of this length a session ends that is as long.
    pub most: Span,
    /// How many of the first columns tell the parts apart.
    pub parts: u16,
    /// How many columns behind these are the key.
    pub keys: u16,
    /// What a session gives behind the key.
    pub aggs: Seq<Aggregate>,
}

impl SessionSpec {
    /// Whether a session window may be begun with it: the timeout is at least 0, and the maximum
    /// above 0. It takes no memory.
    pub fn fits(&self) -> bool
        ensures { result ≡ session_fits self.now }
    {
        self.timeout.ticks() >= 0 && self.most.ticks() > 0
    }

    // The latest end of a session that starts at a time.
    fn latest_end(&self, start: u64) -> u64
        requires fits { session_fits self.now ≡ true }
        requires moment { start ≤ end_ticks }
        ensures value { result ≡ latest_end (most_of self.now) start }
    {
        let most = self.most.ticks().unsigned_abs();
        (start + most + (most - 1)) / most * most
    }

    // The end of a session that starts at a time and has its last row at another.
    fn end_of(&self, start: u64, last: u64) -> u64
        requires fits { session_fits self.now ≡ true }
        requires moments { start ≤ end_ticks }
        requires last_moment { last ≤ end_ticks }
        ensures { result ≡ min (last + timeout_of self.now) (latest_end (most_of self.now) start) }
    {
        let timeout = self.timeout.ticks().unsigned_abs();
        (last + timeout).min(self.latest_end(start))
    }

    // Adds the rows of a session, where it ends within a stretch.
    fn push_session(
        &self,
        alloc: Global,
        start: u64,
        last: u64,
        rows: &[Stamped],
        from: Moment,
        upto: Moment,
        given: &mut Seq<Stamped>,
    ) -> Result<(), Memory>
        requires fits { session_fits self.now ≡ true }
        requires moment { start ≤ end_ticks }
        requires last_moment { last ≤ end_ticks }
        ensures { OnOk result (given.new ≡ given.old ++ between from upto
            (rows_of_session self.now (session_at start last rows.now))) }
    {
        let end = self.end_of(start, last);
        if end < from.count() || upto.count() <= end {
            return Ok(());
        }
        let groups = Groups::of(alloc, self.parts, self.keys, rows)?;
        groups.push_aggregated(alloc, Moment::of_count(end), self.aggs.items(), given)?;
        Ok(())
    }
}

impl Copies for SessionSpec {
    fn copy(&self) -> Result<Self, Memory> {
        Ok(SessionSpec {
            timeout: self.timeout,
            most: self.most,
            parts: self.parts,
            keys: self.keys,
            aggs: self.aggs.copy()?,
        })
    }
}

impl Parts for SessionSpec {
    ghost fits = { session_fits };

    ghost parting = { session_parting };

    ghost reach = { λ spec. None };

    fn columns(&self) -> u16 {
        self.parts
    }

    fn ticks_back(&self) -> Option<u64> {
        None
    }

    fn push_rows(
        &self,
        alloc: Global,
        part: &[Value],
        rows: &[Stamped],
        from: Moment,
        upto: Moment,
        given: &mut Seq<Stamped>,
    ) -> Result<(), Memory> {
        let Some(row) = rows.first() else {
            return Ok(());
        };
        let mut first = 0;
        let mut start = row.time.count();
        let mut last = start;
        for place in 1..rows.len() {
            let time = rows[place].time.count();
            // the end is not below a row that the session holds
            if self.end_of(start, last) < time {
                self.push_session(alloc, start, last, &rows[first..place], from, upto, given)?;
                first = place;
                start = time;
            }
            last = time;
        }
        self.push_session(alloc, start, last, &rows[first..], from, upto, given)?;
        Ok(())
    }

    ghost sound = { session-sound };
}
