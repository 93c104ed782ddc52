// What a message of the network says, by its type.
ghost use Rattle.std.specs.Prelude.{◌≡◌};
ghost use Rattle.dl_nas.specs.Content.{message_type_of, cause_of, timer_of};

// The types of TS 24.501, 8.3, with what is read of each: the cause octet of the fixed part, and the element 37 (back-off
// timer value) inside the container. The three requests are the handset's own message, sent back.
#[derive(Clone, Copy, PartialEq, Eq, Debug)]
pub enum Content {
    EstablishmentAccept { timer: Option<u8> },
    EstablishmentReject { cause: u8, timer: Option<u8> },
    ModificationReject { cause: u8, timer: Option<u8> },
    ModificationCommand { timer: Option<u8> },
    ReleaseReject { cause: u8, timer: Option<u8> },
    ReleaseCommand { cause: u8, timer: Option<u8> },
    Status { cause: u8, timer: Option<u8> },
    EstablishmentRequest,
    ModificationRequest,
    ReleaseRequest,
}

impl Content {
    // The type octet.
    pub fn message_type(&self) -> u8
        ensures { result ≡ message_type_of self.now }
    {
        match *self {
            Content::EstablishmentRequest => 0xC1,
            Content::EstablishmentAccept { .. } => 0xC2,
            Content::EstablishmentReject { .. } => 0xC3,
            Content::ModificationRequest => 0xC9,
            Content::ModificationReject { .. } => 0xCA,
            Content::ModificationCommand { .. } => 0xCB,
            Content::ReleaseRequest => 0xD1,
            Content::ReleaseReject { .. } => 0xD2,
            Content::ReleaseCommand { .. } => 0xD3,
            Content::Status { .. } => 0xD6,
        }
    }

    // The 5GSM cause, of the types that have one.
    pub fn cause(&self) -> Option<u8>
        ensures { result ≡ cause_of self.now }
    {
        match *self {
            Content::EstablishmentReject { cause, .. }
            | Content::ModificationReject { cause, .. }
            | Content::ReleaseReject { cause, .. }
            | Content::ReleaseCommand { cause, .. }
            | Content::Status { cause, .. } => Some(cause),
            _ => None,
        }
    }

    // The timer octet inside the container, where it is there.
    pub fn timer(&self) -> Option<u8>
        ensures { result ≡ timer_of self.now }
    {
        match *self {
            Content::EstablishmentAccept { timer }
            | Content::EstablishmentReject { timer, .. }
            | Content::ModificationReject { timer, .. }
            | Content::ModificationCommand { timer }
            | Content::ReleaseReject { timer, .. }
            | Content::ReleaseCommand { timer, .. }
            | Content::Status { timer, .. } => timer,
            Content::EstablishmentRequest
            | Content::ModificationRequest
            | Content::ReleaseRequest => None,
        }
    }
}
