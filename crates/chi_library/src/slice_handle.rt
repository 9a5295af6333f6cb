//! A slice behind a handle that C holds.

ghost use Rattle.std.specs.Prelude.{◌≡◌, None, Some};
ghost use Rattle.std.specs.declared.option.Option.{Option};
ghost use Rattle.std.specs.Option.{MatchOption};
ghost use Rattle.chi_slice.specs.Slice.{SliceState};
ghost use Rattle.chi_library.specs.SliceHandle.{slice_code, slice_ownership};

use crate::box_pointer::BoxPointer;
use chi_slice::Slice;
use std::alloc::Global;
use std::marker::Model;
use std::mem;
use std::ptr::null_mut;

/// A slice that C holds: a pointer to it, or null where there is none. Contracts see the slice as `value`.
/// Source: `docs/LIBRARY.md`, "Handles".
#[repr(C)]
#[derive(Drop)]
pub struct ChiSlice {
    at: *mut u8,
    alloc: Global,
    pub ghost value: { Option SliceState } by { slice_code },
}

impl Model for ChiSlice {
    ghost also_owns = { λ h. slice_ownership h.alloc h.at h.value };
}

impl ChiSlice {
    /// A handle of no slice.
    fn none(alloc: Global) -> ChiSlice
        ensures { result.value ≡ None }
    {
        ChiSlice {
            at: null_mut(),
            alloc,
        }
    }

    /// The handle of a slice.
    fn of(slice: BoxPointer<Slice<Global>, Global>) -> ChiSlice
        ensures { result.value ≡ Some slice.value }
    {
        let BoxPointer { at, alloc } = slice;
        ChiSlice {
            at: at as *mut u8,
            alloc,
        }
    }

    /// The slice of a handle, if it has one.
    fn into_slice(self) -> Option<BoxPointer<Slice<Global>, Global>>
        ensures { MatchOption result (self.value ≡ None) (λ slice. self.value ≡ Some slice.value) }
    {
        let ChiSlice { at, alloc } = self;
        if at.is_null() {
            None
        } else {
            Some(BoxPointer {
                at: at as *mut Slice<Global>,
                alloc,
            })
        }
    }

    /// Takes the slice out, if there is one: the handle is closed then.
    pub(crate) fn take(&mut self, alloc: Global) -> Option<Box<Slice<Global>>>
        ensures slice { MatchOption result (self.old.value ≡ None)
            (λ held. self.old.value ≡ Some held.value) }
        ensures closed { self.new.value ≡ None }
    {
        let handle = mem::replace(self, ChiSlice::none(alloc));
        Some(handle.into_slice()?.into_box())
    }

    /// Puts a slice into a closed handle.
    pub(crate) fn put(&mut self, slice: Box<Slice<Global>>)
        requires { self.old.value ≡ None }
        ensures { self.new.value ≡ Some slice.value }
    {
        *self = ChiSlice::of(BoxPointer::of(slice));
    }
}
