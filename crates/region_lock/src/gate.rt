//! Where tests hold handlers.

use std::sync::Wait;

/// Two points of a handler's calls. Both may wait, and change nothing that a clause names.
pub trait Gate {
    /// Comes before each call of a handler.
    fn before<R: Wait>(&self, rt: &R, handler: u32, call: u32);

    /// Comes in each put once its edit and, where that was asked for, its sync request are pushed. No lock is held, and the put has not
    /// helped since the last of these pushes.
    fn logged<R: Wait>(&self, rt: &R, handler: u32, call: u32);
}

/// Holds nobody.
#[derive(Clone, Copy)]
pub struct FreeGate;

impl Gate for FreeGate {
    fn before<R: Wait>(&self, rt: &R, handler: u32, call: u32) {
        let _ = rt;
        let _ = handler;
        let _ = call;
    }

    fn logged<R: Wait>(&self, rt: &R, handler: u32, call: u32) {
        let _ = rt;
        let _ = handler;
        let _ = call;
    }
}
