//! Expressions of `typeof`: what has been read of one, and which words go on with it.
ghost use Rattle.std.specs.Prelude.{◌≡◌};
ghost use Rattle.set_script.specs.Expressions.{expression_word_of, address, begun, ip_field, ip6_field, meta_field, port, ct_field, directed_field, arp_field, arp_address, kind_of_whole, one_further, grown_by};

use set_model::Kind;

/// A word of an expression. Words after which expressions go on alike are one here.
#[derive(Clone, Copy, Debug, PartialEq, Eq)]
pub enum ExpressionWord {
    /// `ip`.
    Ip,
    /// `ip6`.
    Ip6,
    /// `meta`.
    Meta,
    /// `ct`.
    Ct,
    /// `ether`.
    Ether,
    /// `arp`.
    Arp,
    /// `tcp`, `udp`, `sctp`, `dccp`, `udplite` or `th`.
    Transport,
    /// `saddr` or `daddr`.
    Address,
    /// `sport` or `dport`.
    Port,
    /// `protocol`.
    Protocol,
    /// `nexthdr`.
    Nexthdr,
    /// `l4proto`.
    L4proto,
    /// `mark`.
    Mark,
    /// `original` or `reply`.
    Direction,
}

/// What has been read of an expression.
#[derive(Clone, Copy, Debug, PartialEq, Eq)]
pub enum Expression {
    /// Nothing.
    Empty,
    /// `ip`.
    Ip,
    /// `ip6`.
    Ip6,
    /// `meta`.
    Meta,
    /// `ether`.
    Ether,
    /// A transport protocol.
    Transport,
    /// `ct`.
    Ct,
    /// `ct` and a direction.
    CtDirected,
    /// `ct`, a direction and `ip`.
    CtIp,
    /// `ct`, a direction and `ip6`.
    CtIp6,
    /// `arp`.
    Arp,
    /// `arp`, and `saddr` or `daddr`.
    ArpAddress,
    /// All of it. Its value is of this kind.
    Whole(Kind),
}

/// The word of an expression that these bytes are.
pub fn read_expression_word(text: &[u8]) -> Option<ExpressionWord>
    ensures { result ≡ expression_word_of text.now }
{
    if text == b"ip".as_slice() {
        Some(ExpressionWord::Ip)
    } else if text == b"ip6".as_slice() {
        Some(ExpressionWord::Ip6)
    } else if text == b"meta".as_slice() {
        Some(ExpressionWord::Meta)
    } else if text == b"ct".as_slice() {
        Some(ExpressionWord::Ct)
    } else if text == b"ether".as_slice() {
        Some(ExpressionWord::Ether)
    } else if text == b"arp".as_slice() {
        Some(ExpressionWord::Arp)
    } else if text == b"tcp".as_slice()
        || text == b"udp".as_slice()
        || text == b"sctp".as_slice()
        || text == b"dccp".as_slice()
        || text == b"udplite".as_slice()
        || text == b"th".as_slice()
    {
        Some(ExpressionWord::Transport)
    } else if text == b"saddr".as_slice() || text == b"daddr".as_slice() {
        Some(ExpressionWord::Address)
    } else if text == b"sport".as_slice() || text == b"dport".as_slice() {
        Some(ExpressionWord::Port)
    } else if text == b"protocol".as_slice() {
        Some(ExpressionWord::Protocol)
    } else if text == b"nexthdr".as_slice() {
        Some(ExpressionWord::Nexthdr)
    } else if text == b"l4proto".as_slice() {
        Some(ExpressionWord::L4proto)
    } else if text == b"mark".as_slice() {
        Some(ExpressionWord::Mark)
    } else if text == b"original".as_slice() || text == b"reply".as_slice() {
        Some(ExpressionWord::Direction)
    } else {
        None
    }
}

/// What has been read after the first word.
fn begin(word: ExpressionWord) -> Option<Expression>
    ensures { result ≡ begun word }
{
    match word {
        ExpressionWord::Ip => Some(Expression::Ip),
        ExpressionWord::Ip6 => Some(Expression::Ip6),
        ExpressionWord::Meta => Some(Expression::Meta),
        ExpressionWord::Ct => Some(Expression::Ct),
        ExpressionWord::Ether => Some(Expression::Ether),
        ExpressionWord::Arp => Some(Expression::Arp),
        ExpressionWord::Transport => Some(Expression::Transport),
        ExpressionWord::Mark => Some(Expression::Whole(Kind::Mark)),
        _ => None,
    }
}

/// An address of a kind.
fn address_of(kind: Kind, word: ExpressionWord) -> Option<Expression>
    ensures { result ≡ address kind word }
{
    match word {
        ExpressionWord::Address => Some(Expression::Whole(kind)),
        _ => None,
    }
}

fn field_of_ip(word: ExpressionWord) -> Option<Expression>
    ensures { result ≡ ip_field word }
{
    match word {
        ExpressionWord::Address => Some(Expression::Whole(Kind::Ipv4)),
        ExpressionWord::Protocol => Some(Expression::Whole(Kind::Proto)),
        _ => None,
    }
}

fn field_of_ip6(word: ExpressionWord) -> Option<Expression>
    ensures { result ≡ ip6_field word }
{
    match word {
        ExpressionWord::Address => Some(Expression::Whole(Kind::Ipv6)),
        ExpressionWord::Nexthdr => Some(Expression::Whole(Kind::Proto)),
        _ => None,
    }
}

fn field_of_meta(word: ExpressionWord) -> Option<Expression>
    ensures { result ≡ meta_field word }
{
    match word {
        ExpressionWord::L4proto => Some(Expression::Whole(Kind::Proto)),
        ExpressionWord::Mark => Some(Expression::Whole(Kind::Mark)),
        _ => None,
    }
}

fn port_of(word: ExpressionWord) -> Option<Expression>
    ensures { result ≡ port word }
{
    match word {
        ExpressionWord::Port => Some(Expression::Whole(Kind::Service)),
        _ => None,
    }
}

fn field_of_ct(word: ExpressionWord) -> Option<Expression>
    ensures { result ≡ ct_field word }
{
    match word {
        ExpressionWord::Mark => Some(Expression::Whole(Kind::Mark)),
        ExpressionWord::Direction => Some(Expression::CtDirected),
        _ => None,
    }
}

fn field_of_direction(word: ExpressionWord) -> Option<Expression>
    ensures { result ≡ directed_field word }
{
    match word {
        ExpressionWord::Ip => Some(Expression::CtIp),
        ExpressionWord::Ip6 => Some(Expression::CtIp6),
        ExpressionWord::Protocol => Some(Expression::Whole(Kind::Proto)),
        _ => None,
    }
}

fn field_of_arp(word: ExpressionWord) -> Option<Expression>
    ensures { result ≡ arp_field word }
{
    match word {
        ExpressionWord::Address => Some(Expression::ArpAddress),
        _ => None,
    }
}

fn address_of_arp(word: ExpressionWord) -> Option<Expression>
    ensures { result ≡ arp_address word }
{
    match word {
        ExpressionWord::Ip => Some(Expression::Whole(Kind::Ipv4)),
        ExpressionWord::Ether => Some(Expression::Whole(Kind::Ether)),
        _ => None,
    }
}

impl Expression {
    /// What has been read after one more word, if an expression goes on with it.
    fn with_word(self, word: ExpressionWord) -> Option<Expression>
        ensures { result ≡ one_further self word }
    {
        match self {
            Expression::Empty => begin(word),
            Expression::Ip => field_of_ip(word),
            Expression::Ip6 => field_of_ip6(word),
            Expression::Meta => field_of_meta(word),
            Expression::Ether => address_of(Kind::Ether, word),
            Expression::Transport => port_of(word),
            Expression::Ct => field_of_ct(word),
            Expression::CtDirected => field_of_direction(word),
            Expression::CtIp => address_of(Kind::Ipv4, word),
            Expression::CtIp6 => address_of(Kind::Ipv6, word),
            Expression::Arp => field_of_arp(word),
            Expression::ArpAddress => address_of_arp(word),
            Expression::Whole(_) => None,
        }
    }

    /// What has been read after one more word, if it is one of an expression that goes on with it.
    pub fn grown(self, word: Option<ExpressionWord>) -> Option<Expression>
        ensures { result ≡ grown_by self word }
    {
        match word {
            Some(word) => self.with_word(word),
            None => None,
        }
    }

    /// The kind of its value, if all of it has been read.
    pub fn kind(self) -> Option<Kind>
        ensures { result ≡ kind_of_whole self }
    {
        match self {
            Expression::Whole(kind) => Some(kind),
            _ => None,
        }
    }
}
