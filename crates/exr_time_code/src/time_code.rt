/// The time of a frame within a sequence, with the flags and the binary groups
/// of SMPTE 12M.
#[derive(Clone, Copy, PartialEq, Eq)]
pub struct TimeCode {
    /// Hours, 0 to 23.
    pub hours: u8,
    /// Minutes, 0 to 59.
    pub minutes: u8,
    /// Seconds, 0 to 59.
    pub seconds: u8,
    /// Frame, 0 to 29.
    pub frame: u8,
    /// Whether this is a drop frame.
    pub drop_frame: bool,
    /// Whether this is a color frame.
    pub color_frame: bool,
    /// Field phase.
    pub field_phase: bool,
    /// Flags for the binary groups.
    pub binary_group_flags: [bool; 3],
    /// The user's control codes, each 0 to 15.
    pub binary_groups: [u8; 8],
}
