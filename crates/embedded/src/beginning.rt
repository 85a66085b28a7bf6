//! A session begins with a pass, and gives it back.

ghost use Rattle.std.specs.Prelude.{◌≡◌, ◌≤◌, ◌<◌, ◌^◌};
ghost use Rattle.server_model.specs.Pass.{IsFresh, IsLater};

use crate::sitting::ServerSession;
use disk_images::Disk;
use handler_threads::ServerName;
use handler_threads::region_calls::{Pass, Server};
use std::alloc::Global;
use std::snapshot::Snapshot;
use std::sync::Wait;

impl<'a, 'b, D: Disk, N: ServerName, R: Wait> ServerSession<'a, 'b, D, N, R> {
    ghost use Rattle.handler_threads.specs.region_calls.Passes.{knows, IsPassOf};
    ghost use Rattle.embedded.specs.Flushers.{MayAllFlush};
    ghost use Rattle.embedded.specs.Sessions.{is_open_in, setting_in, knows_in};
    ghost use Rattle.embedded.specs.Settings.{setting_of};

    /// The session of a handler whose pass was just dealt out, on a server of so many regions whose name lists each call as a flush.
    /// `time` is that of each put's entry, in milliseconds.
    pub fn new(
        rt: &'a R,
        alloc: Global,
        server: &'a Server<'b, D, N, R>,
        pass: Pass<N>,
        time: u64,
        regions: u32,
    ) -> Self
        requires of { IsPassOf server.now pass }
        requires fresh { IsFresh (knows pass).handler (knows pass) }
        requires handler { (1 ≤ (knows pass).handler) × ((knows pass).handler ≤ N.name.handlers) }
        requires regions { regions ≡ N.name.regions }
        requires time { time < 2 ^ 63 }
        requires flushers { MayAllFlush N.name }
        ensures of { is_open_in N.name result }
        ensures setting { setting_in result ≡ setting_of server.now time (knows pass) }
        ensures knows { knows_in result ≡ knows pass }
    {
        let first = Snapshot::of(&pass);
        ServerSession {
            rt,
            alloc,
            server,
            pass,
            time,
            regions,
            calls: 0,
            first,
        }
    }

    /// Gives the pass back. It has lost nothing that it knew when it was dealt out.
    pub fn into_pass(self) -> Pass<N>
        requires of { is_open_in N.name self }
        ensures knows { knows result ≡ knows_in self.entry }
        ensures of { IsPassOf (setting_in self.entry).place result }
        ensures later { IsLater (setting_in self.entry).first (knows result) }
    {
        let ServerSession {
            rt: _,
            alloc: _,
            server: _,
            pass,
            time: _,
            regions: _,
            calls: _,
            first: _first,
        } = self;
        pass
    }
}
