//! Search requests (RFC 4511 4.5.1).
ghost use Rattle.std.specs.Prelude.{◌≡◌};
ghost use Rattle.messages.specs.Ldap.Writer.Octets.{deref_number, scope_number};

/// A SearchRequest (RFC 4511 4.5.1). Texts are UTF-8 octets, as the reader returns them.
///
/// ```
/// let search = Search {
///     base_object: b"dc=example,dc=org",
///     scope: Scope::WholeSubtree,
///     deref_aliases: DerefAliases::Never,
///     size_limit: 0,
///     time_limit: 0,
///     types_only: false,
///     filter: Filter::EqualityMatch {
///         attribute: b"uid",
///         value: b"jdoe",
///     },
///     attributes: &[b"cn", b"mail"],
/// };
/// let size = write_search(&mut buffer, 2, &search)?;
/// ```
#[derive(Clone, Copy, Debug, Drop)]
pub struct Search<'a> {
    pub base_object: &'a [u8],
    pub scope: Scope,
    pub deref_aliases: DerefAliases,
    /// The most entries to return, up to 2147483647. 0 is no limit.
    pub size_limit: u32,
    /// The time limit in seconds, up to 2147483647. 0 is no limit.
    pub time_limit: u32,
    pub types_only: bool,
    pub filter: Filter<'a>,
    /// The requested attributes. If empty, all user attributes are requested (RFC 4511 4.5.1.8).
    pub attributes: &'a [&'a [u8]],
}

/// Which entries are searched (RFC 4511 4.5.1.2).
#[derive(Clone, Copy, Debug, PartialEq)]
pub enum Scope {
    BaseObject,
    SingleLevel,
    WholeSubtree,
}

/// When aliases are followed (RFC 4511 4.5.1.3).
#[derive(Clone, Copy, Debug, PartialEq)]
pub enum DerefAliases {
    Never,
    InSearching,
    FindingBaseObject,
    Always,
}

/// The condition of a search (RFC 4511 4.5.1.7). Two kinds can be written.
#[derive(Clone, Copy, Debug, Drop)]
pub enum Filter<'a> {
    /// The entry has this attribute: `(cn=*)`.
    Present(&'a [u8]),
    /// The attribute has this value: `(uid=jdoe)`.
    EqualityMatch {
        attribute: &'a [u8],
        value: &'a [u8],
    },
}

impl Scope {
    /// The number of the scope.
    pub fn number(self) -> u64
        ensures { result ≡ scope_number self }
    {
        match self {
            Scope::BaseObject => 0,
            Scope::SingleLevel => 1,
            Scope::WholeSubtree => 2,
        }
    }
}

impl DerefAliases {
    /// The number of the choice.
    pub fn number(self) -> u64
        ensures { result ≡ deref_number self }
    {
        match self {
            DerefAliases::Never => 0,
            DerefAliases::InSearching => 1,
            DerefAliases::FindingBaseObject => 2,
            DerefAliases::Always => 3,
        }
    }
}
