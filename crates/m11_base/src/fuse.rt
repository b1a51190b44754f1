//! A feed and a sink that begin to fail after a number of calls, for tests of failing devices.

ghost use Rattle.std.specs.Prelude.{◌≡◌, ◌≢◌, ◌≤◌, ◌<◌, ◌+◌, ◌-◌, length, take, MatchResult, MatchOption, IfOk, OnOk, IsErr};
ghost use Rattle.std.specs.Io.KnownBytes.{Keeps};
ghost use Rattle.m11_base.specs.Devices.{Rises, last_count};
ghost use Rattle.m11_base.specs.Feed.{Gives, GivesBytes, ready_within, text_through_fuse};
ghost use Rattle.m11_base.specs.Fuse.{GivesAndCounts};
ghost use Rattle.m11_base.specs.Sink.{Takes, Counts, CountsFlush};

use crate::fault::DeviceFault;
use crate::feed::Feed;
use crate::sink::Sink;
use std::marker::Model;

/// A feed that passes on a number of calls to another feed, and then fails at each call. Each byte that `pass` consumes counts as
/// a call.
#[derive(Drop)]
pub struct FuseFeed<F: Feed> {
    feed: F,
    calls: u64,
    faults: u64,
}

impl<F: Feed> Model for FuseFeed<F> {
    ghost use Rattle.std.specs.Prelude.{◌≤◌};
    ghost use Rattle.m11_base.specs.Fuse.{FusedFeed};

    ghost Value = { FusedFeed F };

    ghost view = { λ s. record { feed = s.feed; calls = s.calls; faults = s.faults } };

    ghost invariant = { λ s. F.faults s.feed ≤ s.faults };
}

impl<F: Feed> FuseFeed<F> {
    /// A feed that passes on `calls` calls to `feed`. A call that finds the end counts too. Needs a feed without failures so far.
    pub fn new(feed: F, calls: u64) -> FuseFeed<F>
        requires { F.faults feed ≡ 0 }
        ensures fuse { result ≡ record { feed = feed; calls = calls; faults = 0 } }
        ensures text { ⟦<FuseFeed<F> as Feed>⟧.text result ≡ text_through_fuse calls (F.text feed) }
        ensures unfailed { ⟦<FuseFeed<F> as Feed>⟧.faults result ≡ 0 }
    {
        FuseFeed {
            feed,
            calls,
            faults: 0,
        }
    }
}

impl<F: Feed> Feed for FuseFeed<F> {
    ghost text = { λ s. text_through_fuse s.calls (F.text s.feed) };

    ghost faults = { λ s. s.faults };

    ghost left = { λ s. F.left s.feed };

    ghost ready_bytes = { λ s. ready_within s.calls s.faults (F.ready_bytes s.feed) };

    fn next(&mut self) -> Result<Option<u8>, DeviceFault>
        ensures gives { Gives (text_through_fuse self.old.calls (F.text self.old.feed))
            (text_through_fuse self.new.calls (F.text self.new.feed)) self.old.faults result }
        ensures counts { MatchResult result (λ _. self.new.faults ≡ self.old.faults)
            (λ _. Rises self.old.faults self.new.faults) }
        ensures last { self.old.faults ≡ last_count → IsErr result }
        ensures shrinks { MatchResult result
            (λ byte. MatchOption byte (F.left self.new.feed ≤ F.left self.old.feed)
            (λ _. F.left self.new.feed < F.left self.old.feed))
            (λ _. F.left self.new.feed ≤ F.left self.old.feed) }
        ensures spends { self.old.faults ≢ last_count → self.new.calls ≡ self.old.calls - 1 }
        // a blown fuse fails, even at the end of the text
        ensures blows { self.old.calls ≡ 0 → IsErr result }
        // if calls are left and the count of failures is below its greatest value, the inner feed was called and returned this result
        ensures passes { 0 < self.old.calls → self.old.faults ≢ last_count
            → GivesAndCounts (F.text self.old.feed) (F.text self.new.feed) (F.faults self.old.feed)
            (F.faults self.new.feed) result }
    {
        if self.faults == u64::MAX {
            return Err(DeviceFault);
        }
        if self.calls == 0 {
            self.faults += 1;
            return Err(DeviceFault);
        }
        self.calls -= 1;
        let returned = self.feed.next();
        if returned.is_err() {
            self.faults += 1;
        }
        returned
    }

    fn ready(&self) -> &[u8] {
        if self.faults == u64::MAX {
            return &[];
        }
        let shown = self.feed.ready();
        &shown[..shown.len().min(self.calls as usize)]
    }

    fn pass(&mut self, count: usize)
        requires { count ≤ length (ready_within self.old.calls self.old.faults
            (F.ready_bytes self.old.feed)) }
        ensures passes { GivesBytes (text_through_fuse self.old.calls (F.text self.old.feed))
            (text_through_fuse self.new.calls (F.text self.new.feed))
            (take count (ready_within self.old.calls self.old.faults (F.ready_bytes self.old.feed))) }
        ensures keeps { self.new.faults ≡ self.old.faults }
        ensures shrinks { F.left self.new.feed + count ≤ F.left self.old.feed }
        ensures spends { self.new.calls + count ≡ self.old.calls }
    {
        self.feed.pass(count);
        self.calls -= count as u64;
    }
}

/// A sink that passes on a number of calls to another sink, each with a limited number of bytes, and then fails at each call. A
/// flush counts as a call.
#[derive(Drop)]
pub struct FuseSink<S: Sink> {
    sink: S,
    calls: u64,
    most: usize,
    faults: u64,
}

impl<S: Sink> Model for FuseSink<S> {
    ghost use Rattle.std.specs.Prelude.{◌≤◌};
    ghost use Rattle.m11_base.specs.Fuse.{FusedSink};

    ghost Value = { FusedSink S };

    ghost view = { λ s.
        record { sink = s.sink; calls = s.calls; most = s.most; faults = s.faults } };

    ghost invariant = { λ s. S.faults s.sink ≤ s.faults };
}

impl<S: Sink> FuseSink<S> {
    /// A sink that passes on `calls` calls to `sink`, each with at most `most` bytes. Needs a sink without failures so far. If
    /// `most` is 0, no byte is ever accepted.
    pub fn new(sink: S, calls: u64, most: usize) -> FuseSink<S>
        requires { S.faults sink ≡ 0 }
        ensures fuse { result ≡ record { sink = sink; calls = calls; most = most; faults = 0 } }
        ensures text { ⟦<FuseSink<S> as Sink>⟧.text result ≡ S.text sink }
        ensures unfailed { ⟦<FuseSink<S> as Sink>⟧.faults result ≡ 0 }
    {
        FuseSink {
            sink,
            calls,
            most,
            faults: 0,
        }
    }
}

impl<S: Sink> Sink for FuseSink<S> {
    ghost text = { λ s. S.text s.sink };

    ghost faults = { λ s. s.faults };

    ghost held = { λ s. S.held s.sink };

    fn put(&mut self, bytes: &[u8]) -> Result<usize, DeviceFault>
        ensures within { IfOk result (λ n. n ≤ length bytes.now) }
        ensures takes { Takes (S.text self.old.sink) (S.text self.new.sink) result bytes.now }
        ensures counts { Counts self.old.faults self.new.faults result bytes.now }
        ensures last { self.old.faults ≡ last_count → IsErr result }
        ensures limits { IfOk result (λ n. n ≤ self.old.most) }
        ensures unchanged_limit { self.new.most ≡ self.old.most }
        ensures spends { self.old.faults ≢ last_count → self.new.calls ≡ self.old.calls - 1 }
        ensures blows { self.old.calls ≡ 0 → IsErr result }
        // if calls are left and the count of failures is below its greatest value, the inner sink was called with at most `most` bytes from
        // the front, and returned this result
        ensures passes { 0 < self.old.calls → self.old.faults ≢ last_count
            → Counts (S.faults self.old.sink) (S.faults self.new.sink) result
            (take self.old.most bytes.now) }
    {
        if self.faults == u64::MAX {
            return Err(DeviceFault);
        }
        if self.calls == 0 {
            self.faults += 1;
            return Err(DeviceFault);
        }
        self.calls -= 1;
        let front = &bytes[..bytes.len().min(self.most)];
        let returned = self.sink.put(front);
        if returned.is_err() || (matches!(returned, Ok(0)) && !bytes.is_empty()) {
            self.faults += 1;
        }
        returned
    }

    fn flush(&mut self) -> Result<(), DeviceFault>
        ensures all { OnOk result (S.held self.new.sink ≡ 0) }
        ensures keeps { Keeps (S.text self.old.sink) (S.text self.new.sink) }
        ensures counts { CountsFlush self.old.faults self.new.faults result }
        ensures last { self.old.faults ≡ last_count → IsErr result }
        ensures unchanged_limit { self.new.most ≡ self.old.most }
        ensures spends { self.old.faults ≢ last_count → self.new.calls ≡ self.old.calls - 1 }
        ensures blows { self.old.calls ≡ 0 → IsErr result }
        // if calls are left and the count of failures is below its greatest value, the inner sink was flushed and returned this result
        ensures passes { 0 < self.old.calls → self.old.faults ≢ last_count
            → CountsFlush (S.faults self.old.sink) (S.faults self.new.sink) result }
    {
        if self.faults == u64::MAX {
            return Err(DeviceFault);
        }
        if self.calls == 0 {
            self.faults += 1;
            return Err(DeviceFault);
        }
        self.calls -= 1;
        let returned = self.sink.flush();
        if returned.is_err() {
            self.faults += 1;
        }
        returned
    }
}
