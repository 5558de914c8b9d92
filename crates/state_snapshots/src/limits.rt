// The form of snapshots.

/// The version of the form of snapshots, which is their first byte: 1.
pub const FORM_VERSION: u8 = 1;
