//! A monitor behind a handle that C holds.

ghost use Rattle.std.specs.Prelude.{◌≡◌, None, Some};
ghost use Rattle.std.specs.declared.option.Option.{Option};
ghost use Rattle.std.specs.Option.{MatchOption};
ghost use Rattle.chi_monitor.specs.Watched.{MonitorState};
ghost use Rattle.chi_library.specs.MonitorHandle.{monitor_code, monitor_ownership};

use crate::box_pointer::BoxPointer;
use chi_monitor::Monitor;
use std::alloc::Global;
use std::marker::Model;
use std::mem;
use std::ptr::null_mut;

/// A monitor that C holds: a pointer to it, or null where there is none. Contracts see the monitor as `value`.
/// Source: `docs/LIBRARY.md`, "Handles".
#[repr(C)]
#[derive(Drop)]
pub struct ChiMonitor {
    at: *mut u8,
    alloc: Global,
    pub ghost value: { Option MonitorState } by { monitor_code },
}

impl Model for ChiMonitor {
    ghost also_owns = { λ h. monitor_ownership h.alloc h.at h.value };
}

impl ChiMonitor {
    /// A handle of no monitor.
    fn none(alloc: Global) -> ChiMonitor
        ensures { result.value ≡ None }
    {
        ChiMonitor {
            at: null_mut(),
            alloc,
        }
    }

    /// The handle of a monitor.
    fn of(monitor: BoxPointer<Monitor<Global>, Global>) -> ChiMonitor
        ensures { result.value ≡ Some monitor.value }
    {
        let BoxPointer { at, alloc } = monitor;
        ChiMonitor {
            at: at as *mut u8,
            alloc,
        }
    }

    /// The monitor of a handle, if it has one.
    fn into_monitor(self) -> Option<BoxPointer<Monitor<Global>, Global>>
        ensures { MatchOption result (self.value ≡ None)
            (λ monitor. self.value ≡ Some monitor.value) }
    {
        let ChiMonitor { at, alloc } = self;
        if at.is_null() {
            None
        } else {
            Some(BoxPointer {
                at: at as *mut Monitor<Global>,
                alloc,
            })
        }
    }

    /// Takes the monitor out, if there is one: the handle is closed then.
    pub(crate) fn take(&mut self, alloc: Global) -> Option<Box<Monitor<Global>>>
        ensures monitor { MatchOption result (self.old.value ≡ None) (λ held. self.old.value
            ≡ Some held.value) }
        ensures closed { self.new.value ≡ None }
    {
        let handle = mem::replace(self, ChiMonitor::none(alloc));
        Some(handle.into_monitor()?.into_box())
    }

    /// Puts a monitor into a closed handle.
    pub(crate) fn put(&mut self, monitor: Box<Monitor<Global>>)
        requires { self.old.value ≡ None }
        ensures { self.new.value ≡ Some monitor.value }
    {
        *self = ChiMonitor::of(BoxPointer::of(monitor));
    }
}
