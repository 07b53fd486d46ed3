// The limits of a plan.
pub(crate) const MOST_RADICES: usize = 9;

pub(crate) const LEAST_RADIX: u8 = 2;

pub(crate) const LARGEST_RADIX: u8 = 8;

pub(crate) const LARGEST_SIZE: usize = 512;
