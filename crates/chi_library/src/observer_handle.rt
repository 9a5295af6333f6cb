//! An observer behind a handle that C holds.

ghost use Rattle.std.specs.Prelude.{◌≡◌, None, Some};
ghost use Rattle.std.specs.declared.option.Option.{Option};
ghost use Rattle.std.specs.Global.{Global};
ghost use Rattle.std.specs.Option.{MatchOption};
ghost use Rattle.chi_observe.specs.declared.benches.BenchWatch.{BenchWatch};
ghost use Rattle.chi_library.specs.ObserverHandle.{observer_code, observer_ownership};

use crate::box_pointer::BoxPointer;
use chi_observe::BenchWatch;
use std::alloc::Global;
use std::marker::Model;
use std::mem;
use std::ptr::null_mut;

/// An observer that C holds: a pointer to it, or null where there is none. Contracts see the observer as `value`.
/// Source: `docs/LIBRARY.md`, "Handles".
#[repr(C)]
#[derive(Drop)]
pub struct ChiObserver {
    at: *mut u8,
    alloc: Global,
    pub ghost value: { Option (BenchWatch Global) } by { observer_code },
}

impl Model for ChiObserver {
    ghost also_owns = { λ h. observer_ownership h.alloc h.at h.value };
}

impl ChiObserver {
    /// A handle of no observer.
    fn none(alloc: Global) -> ChiObserver
        ensures { result.value ≡ None }
    {
        ChiObserver {
            at: null_mut(),
            alloc,
        }
    }

    /// The handle of an observer.
    fn of(observer: BoxPointer<BenchWatch<Global>, Global>) -> ChiObserver
        ensures { result.value ≡ Some observer.value }
    {
        let BoxPointer { at, alloc } = observer;
        ChiObserver {
            at: at as *mut u8,
            alloc,
        }
    }

    /// The observer of a handle, if it has one.
    fn into_observer(self) -> Option<BoxPointer<BenchWatch<Global>, Global>>
        ensures { MatchOption result (self.value ≡ None)
            (λ observer. self.value ≡ Some observer.value) }
    {
        let ChiObserver { at, alloc } = self;
        if at.is_null() {
            None
        } else {
            Some(BoxPointer {
                at: at as *mut BenchWatch<Global>,
                alloc,
            })
        }
    }

    /// Takes the observer out, if there is one: the handle is closed then.
    pub(crate) fn take(&mut self, alloc: Global) -> Option<Box<BenchWatch<Global>>>
        ensures observer { MatchOption result (self.old.value ≡ None) (λ held. self.old.value
            ≡ Some held.value) }
        ensures closed { self.new.value ≡ None }
    {
        let handle = mem::replace(self, ChiObserver::none(alloc));
        Some(handle.into_observer()?.into_box())
    }

    /// Puts an observer into a closed handle.
    pub(crate) fn put(&mut self, observer: Box<BenchWatch<Global>>)
        requires { self.old.value ≡ None }
        ensures { self.new.value ≡ Some observer.value }
    {
        *self = ChiObserver::of(BoxPointer::of(observer));
    }
}
