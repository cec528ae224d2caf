//! The verdicts and their codes.
ghost use Rattle.std.specs.Prelude.{◌≡◌, true, false, IfErr, OnOk};
ghost use Rattle.verdict_codes.specs.Codes.{number_of, name_of};

/// What the program answers where it does not do what a message asks for. Each has a number, and its name is printed
/// beside it: from 1 those of a login, from 30 those of a logout, from 40 those of a request to log in, and from 50
/// those that speak of the program itself; 70 is of the registry.
#[derive(Clone, Copy, Debug, PartialEq, Eq)]
pub enum Verdict {
    /// The body of a POST is not the form that is asked for there.
    BadForm,
    /// The message in the form is not base64.
    BadBase64,
    /// The message is longer than a document may be.
    TooLarge,
    /// The bytes are not a well-formed document of the kind that is read (XML 1.0, 2.1).
    BadXml,
    /// The document is deeper, or an element has more attributes, than is read.
    XmlLimit,
    /// A name breaks the rules of Namespaces in XML 1.0.
    BadNames,
    /// Two elements have one ID.
    DuplicateId,
    /// The document is not a Response (SAML Core, 3.3.3).
    NotResponse,
    /// The status of the Response is not Success (SAML Core, 3.2.2.2).
    NotSuccess,
    /// The Response has none or several Assertions.
    NotOneAssertion,
    /// The Signature is absent, or not of the form that is accepted (SAML Core, 5.4).
    BadSignatureForm,
    /// The Signature does not refer to the element that it stands in (SAML Core, 5.4.2), or no element has the ID that is
    /// asked for.
    BadReference,
    /// The value of the Signature is not that of its SignedInfo under the key.
    TagDiffers,
    /// The digest is not that of the element that is referred to.
    DigestDiffers,
    /// The Assertion is not of the form that is read.
    BadAssertion,
    /// The Assertion was issued by another provider than the one asked.
    WrongIssuer,
    /// The Assertion is not meant for this provider (SAML Core, 2.5.1.4).
    WrongAudience,
    /// The Response or its confirmation names another address (SAML Profiles, 4.1.4.3).
    WrongRecipient,
    /// The moment is outside of the Conditions or the confirmation (SAML Core, 2.5.1.2).
    NotInTime,
    /// The Response answers no request that is outstanding.
    NotOutstanding,
    /// The request was answered before.
    RequestSpent,
    /// The Assertion was accepted before.
    AssertionSeen,
    /// The RelayState is not the one that the request was sent with.
    RelayDiffers,
    /// The document is no LogoutRequest or LogoutResponse (SAML Core, 3.7).
    NotLogout,
    /// The message was issued by a provider that is not a peer.
    UnknownPeer,
    /// The logout message names another address as its Destination.
    LogoutDestination,
    /// No session is open that the LogoutRequest names, or that the cookie of a logout names.
    NoSuchSession,
    /// The LogoutResponse answers no logout that is open.
    UnknownLogout,
    /// The moment is past the end that the LogoutRequest gives.
    LogoutNotInTime,
    /// The document is not an AuthnRequest (SAML Core, 3.4.1).
    NotAuthnRequest,
    /// The AuthnRequest was issued by an unknown provider.
    UnknownIssuer,
    /// The AuthnRequest names another address as its Destination.
    RequestDestination,
    /// The AuthnRequest asks for an answer to an address that is not its issuer's, or over another binding.
    WrongConsumer,
    /// No login of that number is pending.
    NoSuchPending,
    /// The name and the password do not go together.
    LoginRefused,
    /// The disk failed.
    DiskFault,
    /// There is no room for a further row.
    Full,
    /// There was no memory.
    NoMemory,
    /// The journal is not one that this program wrote for this role.
    Foreign,
    /// The registry that names the identity provider is past the end that it gives itself (SAML Metadata, 2.3.1).
    RegistryExpired,
}

impl Verdict {
    /// The number of the verdict.
    pub fn number(&self) -> u16
        ensures { result ≡ number_of self.now }
    {
        match self {
            Verdict::BadForm => 1,
            Verdict::BadBase64 => 2,
            Verdict::TooLarge => 3,
            Verdict::BadXml => 4,
            Verdict::XmlLimit => 5,
            Verdict::BadNames => 6,
            Verdict::DuplicateId => 7,
            Verdict::NotResponse => 8,
            Verdict::NotSuccess => 9,
            Verdict::NotOneAssertion => 10,
            Verdict::BadSignatureForm => 11,
            Verdict::BadReference => 12,
            Verdict::TagDiffers => 13,
            Verdict::DigestDiffers => 14,
            Verdict::BadAssertion => 15,
            Verdict::WrongIssuer => 16,
            Verdict::WrongAudience => 17,
            Verdict::WrongRecipient => 18,
            Verdict::NotInTime => 19,
            Verdict::NotOutstanding => 20,
            Verdict::RequestSpent => 21,
            Verdict::AssertionSeen => 22,
            Verdict::RelayDiffers => 23,
            Verdict::NotLogout => 30,
            Verdict::UnknownPeer => 31,
            Verdict::LogoutDestination => 32,
            Verdict::NoSuchSession => 33,
            Verdict::UnknownLogout => 34,
            Verdict::LogoutNotInTime => 35,
            Verdict::NotAuthnRequest => 40,
            Verdict::UnknownIssuer => 41,
            Verdict::RequestDestination => 42,
            Verdict::WrongConsumer => 43,
            Verdict::NoSuchPending => 45,
            Verdict::LoginRefused => 46,
            Verdict::DiskFault => 50,
            Verdict::Full => 51,
            Verdict::NoMemory => 52,
            Verdict::Foreign => 53,
            Verdict::RegistryExpired => 70,
        }
    }

    /// The name of the verdict, as it is printed.
    pub fn name(&self) -> &'static str
        ensures { result.now ≡ name_of self.now }
    {
        match self {
            Verdict::BadForm => "BadForm",
            Verdict::BadBase64 => "BadBase64",
            Verdict::TooLarge => "TooLarge",
            Verdict::BadXml => "BadXml",
            Verdict::XmlLimit => "XmlLimit",
            Verdict::BadNames => "BadNames",
            Verdict::DuplicateId => "DuplicateId",
            Verdict::NotResponse => "NotResponse",
            Verdict::NotSuccess => "NotSuccess",
            Verdict::NotOneAssertion => "NotOneAssertion",
            Verdict::BadSignatureForm => "BadSignatureForm",
            Verdict::BadReference => "BadReference",
            Verdict::TagDiffers => "TagDiffers",
            Verdict::DigestDiffers => "DigestDiffers",
            Verdict::BadAssertion => "BadAssertion",
            Verdict::WrongIssuer => "WrongIssuer",
            Verdict::WrongAudience => "WrongAudience",
            Verdict::WrongRecipient => "WrongRecipient",
            Verdict::NotInTime => "NotInTime",
            Verdict::NotOutstanding => "NotOutstanding",
            Verdict::RequestSpent => "RequestSpent",
            Verdict::AssertionSeen => "AssertionSeen",
            Verdict::RelayDiffers => "RelayDiffers",
            Verdict::NotLogout => "NotLogout",
            Verdict::UnknownPeer => "UnknownPeer",
            Verdict::LogoutDestination => "LogoutDestination",
            Verdict::NoSuchSession => "NoSuchSession",
            Verdict::UnknownLogout => "UnknownLogout",
            Verdict::LogoutNotInTime => "LogoutNotInTime",
            Verdict::NotAuthnRequest => "NotAuthnRequest",
            Verdict::UnknownIssuer => "UnknownIssuer",
            Verdict::RequestDestination => "RequestDestination",
            Verdict::WrongConsumer => "WrongConsumer",
            Verdict::NoSuchPending => "NoSuchPending",
            Verdict::LoginRefused => "LoginRefused",
            Verdict::DiskFault => "DiskFault",
            Verdict::Full => "Full",
            Verdict::NoMemory => "NoMemory",
            Verdict::Foreign => "Foreign",
            Verdict::RegistryExpired => "RegistryExpired",
        }
    }
}

/// Every verdict, in the order of the numbers.
pub const VERDICTS: [Verdict; 40] = [
    Verdict::BadForm,
    Verdict::BadBase64,
    Verdict::TooLarge,
    Verdict::BadXml,
    Verdict::XmlLimit,
    Verdict::BadNames,
    Verdict::DuplicateId,
    Verdict::NotResponse,
    Verdict::NotSuccess,
    Verdict::NotOneAssertion,
    Verdict::BadSignatureForm,
    Verdict::BadReference,
    Verdict::TagDiffers,
    Verdict::DigestDiffers,
    Verdict::BadAssertion,
    Verdict::WrongIssuer,
    Verdict::WrongAudience,
    Verdict::WrongRecipient,
    Verdict::NotInTime,
    Verdict::NotOutstanding,
    Verdict::RequestSpent,
    Verdict::AssertionSeen,
    Verdict::RelayDiffers,
    Verdict::NotLogout,
    Verdict::UnknownPeer,
    Verdict::LogoutDestination,
    Verdict::NoSuchSession,
    Verdict::UnknownLogout,
    Verdict::LogoutNotInTime,
    Verdict::NotAuthnRequest,
    Verdict::UnknownIssuer,
    Verdict::RequestDestination,
    Verdict::WrongConsumer,
    Verdict::NoSuchPending,
    Verdict::LoginRefused,
    Verdict::DiskFault,
    Verdict::Full,
    Verdict::NoMemory,
    Verdict::Foreign,
    Verdict::RegistryExpired,
];

/// Asks that a condition holds: where it does not, the answer is this verdict.
pub fn ask(holds: bool, verdict: Verdict) -> Result<(), Verdict>
    ensures ok { OnOk result (holds ≡ true) }
    ensures err { IfErr result (λ e. (e ≡ verdict) × (holds ≡ false)) }
{
    if holds { Ok(()) } else { Err(verdict) }
}
