//! An allocator that refuses some of the requests for memory.

use std::alloc::{AllocError, Allocator};
use std::cell::Cell;

/// Which requests are refused, counted from 0, and how many there were.
#[derive(Drop)]
pub struct Plan {
    first: u64,
    alone: bool,
    asked: Cell<u64>,
}

impl Plan {
    /// That request and all after it.
    pub fn all_from(first: u64) -> Plan {
        Plan {
            first,
            alone: false,
            asked: Cell::new(0),
        }
    }

    /// That request and no other.
    pub fn only(first: u64) -> Plan {
        Plan {
            first,
            alone: true,
            asked: Cell::new(0),
        }
    }

    // Counts a request, and says whether it is refused.
    fn refuses(&self) -> bool {
        let asked = self.asked.get();
        self.asked.set(asked.saturating_add(1));
        if self.alone {
            asked == self.first
        } else {
            asked >= self.first
        }
    }
}

/// An allocator that passes each request on to another, but for those that its plan refuses.
#[derive(Drop)]
pub struct Refusing<B: Allocator> {
    inner: B,
    plan: Plan,
}

impl<B: Allocator> Refusing<B> {
    pub fn new(inner: B, plan: Plan) -> Refusing<B> {
        Refusing { inner, plan }
    }

    /// How many requests there were, refused ones too.
    pub fn asked(&self) -> u64 {
        self.plan.asked.get()
    }
}

unsafe impl<B: Allocator> Allocator for Refusing<B> {
    ghost dealloc_token = { λ refusing ty ptr. B.dealloc_token refusing.inner ty ptr };

    fn allocate(&self, size: usize, align: usize) -> Result<*mut u8, AllocError> {
        if self.plan.refuses() {
            return Err(AllocError);
        }
        self.inner.allocate(size, align)
    }

    unsafe fn deallocate(&self, ptr: *mut u8, size: usize, align: usize) {
        self.inner.deallocate(ptr, size, align);
    }
}
