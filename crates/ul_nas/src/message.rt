// What an uplink message says, and which messages are lawful.
ghost use Rattle.std.specs.Prelude.{◌≡◌, ◌+◌};
ghost use Rattle.std.specs.Option.{option_map};
ghost use Rattle.std.specs.Result.{result_ok};
ghost use Rattle.ul_nas.specs.Message.{carried, viewed, request_number, request_type_of, emergency, message_type_of};
ghost use Rattle.ul_nas.specs.Lawful.{lawful_slice, lawful_name, lawful_elements, lawful_pti, lawful};

// The request type (9.11.3.47) of an establishment request, with its number.
#[derive(Clone, Copy, PartialEq, Debug)]
pub enum RequestType {
    Initial = 1,
    Existing = 2,
    InitialEmergency = 3,
    ExistingEmergency = 4,
}

// The refusal of a number that no request type has.
#[derive(Clone, Copy, PartialEq, Debug)]
pub struct UnknownRequestType;

impl TryFrom<u8> for RequestType {
    type Error = UnknownRequestType;

    ghost try_from_gives = { λ number r. result_ok r ≡ request_type_of number };

    fn try_from(number: u8) -> Result<RequestType, UnknownRequestType> {
        match number {
            1 => Ok(RequestType::Initial),
            2 => Ok(RequestType::Existing),
            3 => Ok(RequestType::InitialEmergency),
            4 => Ok(RequestType::ExistingEmergency),
            _ => Err(UnknownRequestType),
        }
    }
}

impl RequestType {
    pub fn number(&self) -> u8
        ensures { result ≡ request_number self.now }
    {
        *self as u8
    }

    // The octet 8T with the request type T.
    pub(crate) fn octet(&self) -> u8
        ensures { result ≡ 0x80 + request_number self.now }
    {
        0x80 | self.number()
    }

    pub fn is_emergency(&self) -> bool
        ensures { result ≡ emergency self.now }
    {
        matches!(
            *self,
            RequestType::InitialEmergency | RequestType::ExistingEmergency
        )
    }
}

// What a request to establish a session asks for: the request type, the slice (S-NSSAI) and the name (DNN).
#[derive(Clone, Copy, PartialEq, Debug)]
pub struct Establishment<'a> {
    pub request_type: RequestType,
    pub slice: Option<&'a [u8]>,
    pub name: Option<&'a [u8]>,
}

// The session management message in the container.
#[derive(Clone, Copy, PartialEq, Debug)]
pub enum Content<'a> {
    EstablishmentRequest(Establishment<'a>),
    ModificationRequest,
    ReleaseRequest,
    ModificationComplete,
    ReleaseComplete,
    Status,
}

impl<'a> Content<'a> {
    pub fn message_type(&self) -> u8
        ensures { result ≡ message_type_of (carried self.now) }
    {
        match *self {
            Content::EstablishmentRequest(_) => 0xC1,
            Content::ModificationRequest => 0xC9,
            Content::ReleaseRequest => 0xD1,
            Content::ModificationComplete => 0xCC,
            Content::ReleaseComplete => 0xD4,
            Content::Status => 0xD6,
        }
    }
}

// An uplink message: the PDU session identity, the PTI (procedure transaction identity) and the content.
#[derive(Clone, Copy, PartialEq, Debug)]
pub struct UplinkMessage<'a> {
    pub identity: u8,
    pub pti: u8,
    pub content: Content<'a>,
}

// A slice has 1, 2, 4, 5 or 8 octets, or is absent.
fn slice_is_lawful(slice: Option<&[u8]>) -> bool
    ensures { result ≡ lawful_slice (option_map (λ x. x.now) slice.entry) }
{
    slice.is_none_or(|octets| matches!(octets.len(), 1 | 2 | 4 | 5 | 8))
}

// A name has 1 to 100 octets, or is absent.
fn name_is_lawful(name: Option<&[u8]>) -> bool
    ensures { result ≡ lawful_name (option_map (λ x. x.now) name.entry) }
{
    name.is_none_or(|octets| matches!(octets.len(), 1..=100))
}

// The slice and the name of an establishment request; an emergency request has neither.
fn elements_are_lawful(content: &Content<'_>) -> bool
    ensures { result ≡ lawful_elements (carried content.now) }
{
    match *content {
        Content::EstablishmentRequest(
            Establishment {
                request_type,
                slice,
                name,
            },
        ) => {
            if request_type.is_emergency() {
                slice.is_none() && name.is_none()
            } else {
                slice_is_lawful(slice) && name_is_lawful(name)
            }
        }
        _ => true,
    }
}

// A request has a PTI from 1 to 254, a completion one from 0 to 254, a status message any.
fn pti_is_lawful(content: &Content<'_>, pti: u8) -> bool
    ensures { result ≡ lawful_pti (carried content.now) pti }
{
    match *content {
        Content::EstablishmentRequest(_) | Content::ModificationRequest | Content::ReleaseRequest =>
            matches!(pti, 1..=254),
        Content::ModificationComplete | Content::ReleaseComplete => pti <= 254,
        Content::Status => true,
    }
}

impl<'a> UplinkMessage<'a> {
    // Question 19, apart from the form: one identity 1 to 15, a PTI as the type allows, and lawful elements.
    pub fn is_lawful(&self) -> bool
        ensures { result ≡ lawful (viewed self.now) }
    {
        matches!(self.identity, 1..=15)
            && pti_is_lawful(&self.content, self.pti)
            && elements_are_lawful(&self.content)
    }
}
