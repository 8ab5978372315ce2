//! How much memory may be taken for what is known of lists.

/// The most bytes that what is known of lists may take. It changes how soon queries are answered, and no answer.
#[derive(Clone, Copy)]
pub struct ListRoom {
    bytes: u64,
}

impl ListRoom {
    /// As much as serves.
    pub fn as_ever() -> ListRoom {
        ListRoom { bytes: u64::MAX }
    }

    /// None: nothing is ever made.
    pub fn none() -> ListRoom {
        ListRoom { bytes: 0 }
    }

    /// So many times 2^20 bytes at most.
    pub fn of_mib(count: u64) -> ListRoom {
        ListRoom {
            bytes: count.saturating_mul(1 << 20),
        }
    }

    /// How many bytes are left beside so many; none where these are more than there are, or all.
    pub(crate) fn beside(self, taken: u64) -> Option<u64> {
        if taken >= self.bytes {
            return None;
        }
        Some(self.bytes - taken)
    }
}
