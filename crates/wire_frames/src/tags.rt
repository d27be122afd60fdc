//! The kinds of frames.
ghost use Rattle.std.specs.Prelude.{◌≡◌};
ghost use Rattle.wire_frames.specs.Frames.{number_of, version_of, tag_in, limit_of};

/// The kind of a frame.
#[derive(Clone, Copy, Debug, PartialEq, Eq)]
pub enum Tag {
    Originate,
    Withdraw,
    Prefer,
    Notice,
    OpenSession,
    Snap,
    Propose,
    Update,
    Marker,
    Hello,
    Report,
    Prepare,
    Promise,
    Accept,
    Accepted,
    Decision,
    Hop,
    Forward,
    Ended,
    Published,
    Inject,
    /// An update with several triggers.
    ListedUpdate,
    /// A report that has no spelling in version 1.
    ListedReport,
    Flush,
}

impl Tag {
    /// The byte of the kind.
    pub fn number(self) -> u8
        ensures { result ≡ number_of self }
    {
        match self {
            Tag::Originate => 1,
            Tag::Withdraw => 2,
            Tag::Prefer => 3,
            Tag::Notice => 4,
            Tag::OpenSession => 5,
            Tag::Snap => 6,
            Tag::Propose => 7,
            Tag::Update => 8,
            Tag::Marker => 9,
            Tag::Hello => 10,
            Tag::Report => 11,
            Tag::Prepare => 12,
            Tag::Promise => 13,
            Tag::Accept => 14,
            Tag::Accepted => 15,
            Tag::Decision => 16,
            Tag::Hop => 17,
            Tag::Forward => 18,
            Tag::Ended => 19,
            Tag::Published => 20,
            Tag::Inject => 21,
            Tag::ListedUpdate => 8,
            Tag::ListedReport => 11,
            Tag::Flush => 22,
        }
    }

    /// The version in which the kind exists.
    pub fn version(self) -> u8
        ensures { result ≡ version_of self }
    {
        match self {
            Tag::ListedUpdate | Tag::ListedReport | Tag::Flush => 2,
            _ => 1,
        }
    }

    // The kind of version 1 with this byte.
    #[tactic(auto, unfolding(crate::specs::Frames::tag_in))]
    fn in_first(byte: u8) -> Option<Tag>
        ensures { result ≡ tag_in 1 byte }
    {
        match byte {
            1 => Some(Tag::Originate),
            2 => Some(Tag::Withdraw),
            3 => Some(Tag::Prefer),
            4 => Some(Tag::Notice),
            5 => Some(Tag::OpenSession),
            6 => Some(Tag::Snap),
            7 => Some(Tag::Propose),
            8 => Some(Tag::Update),
            9 => Some(Tag::Marker),
            10 => Some(Tag::Hello),
            11 => Some(Tag::Report),
            12 => Some(Tag::Prepare),
            13 => Some(Tag::Promise),
            14 => Some(Tag::Accept),
            15 => Some(Tag::Accepted),
            16 => Some(Tag::Decision),
            17 => Some(Tag::Hop),
            18 => Some(Tag::Forward),
            19 => Some(Tag::Ended),
            20 => Some(Tag::Published),
            21 => Some(Tag::Inject),
            _ => None,
        }
    }

    // The kind of version 2 with this byte.
    #[tactic(auto, unfolding(crate::specs::Frames::tag_in))]
    fn in_second(byte: u8) -> Option<Tag>
        ensures { result ≡ tag_in 2 byte }
    {
        match byte {
            8 => Some(Tag::ListedUpdate),
            11 => Some(Tag::ListedReport),
            22 => Some(Tag::Flush),
            _ => None,
        }
    }

    /// The kind of this version with this byte.
    #[tactic(auto, unfolding(crate::specs::Frames::tag_in))]
    pub fn with_number(version: u8, byte: u8) -> Option<Tag>
        ensures { result ≡ tag_in version byte }
    {
        match version {
            1 => Tag::in_first(byte),
            2 => Tag::in_second(byte),
            _ => None,
        }
    }

    /// The most bytes of a body of this kind.
    pub fn limit(self) -> u32
        ensures { result ≡ limit_of self }
    {
        match self {
            Tag::Report | Tag::Promise | Tag::Accept | Tag::Decision | Tag::ListedReport =>
                1_048_576,
            _ => 65_536,
        }
    }
}
