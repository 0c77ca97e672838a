//! Messages of Kerberos (RFC 4120 5).
use crate::numbered::{
    AP_REQUEST, ENCRYPTED, HOST_ADDRESS, KDC_REPLY, KDC_REQUEST, PRINCIPAL, TICKET,
};
use crate::universal::{BIT_STRING, GENERAL_STRING, GENERALIZED_TIME, INTEGER, OCTET_STRING};
use der_schema::schema::{Component, Inside, Selection, Type};
use der_schema::words::NumberName;
use der_schema::{
    explicit, field, names, optional, selection, sequence, sequence_of, string, tagged,
};

/// The names of encryption types (RFC 3961 8, RFC 4757 4, RFC 6803 8, RFC 8009 7).
const ENCRYPTION_TYPES: &[NumberName] = names![
    1 "des-cbc-crc", 2 "des-cbc-md4", 3 "des-cbc-md5", 5 "des3-cbc-md5", 7 "des3-cbc-sha1", 16 "des3-cbc-sha1-kd",
    17 "aes128-cts-hmac-sha1-96", 18 "aes256-cts-hmac-sha1-96", 19 "aes128-cts-hmac-sha256-128",
    20 "aes256-cts-hmac-sha384-192", 23 "rc4-hmac", 24 "rc4-hmac-exp", 25 "camellia128-cts-cmac",
    26 "camellia256-cts-cmac",
];

/// The names of error-code (RFC 4120 7.5.9).
const ERRORS: &[NumberName] = names![
    0 "KDC_ERR_NONE", 1 "KDC_ERR_NAME_EXP", 2 "KDC_ERR_SERVICE_EXP", 3 "KDC_ERR_BAD_PVNO",
    4 "KDC_ERR_C_OLD_MAST_KVNO", 5 "KDC_ERR_S_OLD_MAST_KVNO", 6 "KDC_ERR_C_PRINCIPAL_UNKNOWN",
    7 "KDC_ERR_S_PRINCIPAL_UNKNOWN", 8 "KDC_ERR_PRINCIPAL_NOT_UNIQUE", 9 "KDC_ERR_NULL_KEY",
    10 "KDC_ERR_CANNOT_POSTDATE", 11 "KDC_ERR_NEVER_VALID", 12 "KDC_ERR_POLICY", 13 "KDC_ERR_BADOPTION",
    14 "KDC_ERR_ETYPE_NOSUPP", 15 "KDC_ERR_SUMTYPE_NOSUPP", 16 "KDC_ERR_PADATA_TYPE_NOSUPP",
    17 "KDC_ERR_TRTYPE_NOSUPP", 18 "KDC_ERR_CLIENT_REVOKED", 19 "KDC_ERR_SERVICE_REVOKED", 20 "KDC_ERR_TGT_REVOKED",
    21 "KDC_ERR_CLIENT_NOTYET", 22 "KDC_ERR_SERVICE_NOTYET", 23 "KDC_ERR_KEY_EXPIRED", 24 "KDC_ERR_PREAUTH_FAILED",
    25 "KDC_ERR_PREAUTH_REQUIRED", 26 "KDC_ERR_SERVER_NOMATCH", 27 "KDC_ERR_MUST_USE_USER2USER",
    28 "KDC_ERR_PATH_NOT_ACCEPTED", 29 "KDC_ERR_SVC_UNAVAILABLE", 31 "KRB_AP_ERR_BAD_INTEGRITY",
    32 "KRB_AP_ERR_TKT_EXPIRED", 33 "KRB_AP_ERR_TKT_NYV", 34 "KRB_AP_ERR_REPEAT", 35 "KRB_AP_ERR_NOT_US",
    36 "KRB_AP_ERR_BADMATCH", 37 "KRB_AP_ERR_SKEW", 38 "KRB_AP_ERR_BADADDR", 39 "KRB_AP_ERR_BADVERSION",
    40 "KRB_AP_ERR_MSG_TYPE", 41 "KRB_AP_ERR_MODIFIED", 42 "KRB_AP_ERR_BADORDER", 44 "KRB_AP_ERR_BADKEYVER",
    45 "KRB_AP_ERR_NOKEY", 46 "KRB_AP_ERR_MUT_FAIL", 47 "KRB_AP_ERR_BADDIRECTION", 48 "KRB_AP_ERR_METHOD",
    49 "KRB_AP_ERR_BADSEQ", 50 "KRB_AP_ERR_INAPP_CKSUM", 51 "KRB_AP_PATH_NOT_ACCEPTED",
    52 "KRB_ERR_RESPONSE_TOO_BIG", 60 "KRB_ERR_GENERIC", 61 "KRB_ERR_FIELD_TOOLONG",
    62 "KDC_ERROR_CLIENT_NOT_TRUSTED", 63 "KDC_ERROR_KDC_NOT_TRUSTED", 64 "KDC_ERROR_INVALID_SIG",
    65 "KDC_ERR_KEY_TOO_WEAK", 66 "KDC_ERR_CERTIFICATE_MISMATCH", 67 "KRB_AP_ERR_NO_TGT", 68 "KDC_ERR_WRONG_REALM",
    69 "KRB_AP_ERR_USER_TO_USER_REQUIRED", 70 "KDC_ERR_CANT_VERIFY_CERTIFICATE", 71 "KDC_ERR_INVALID_CERTIFICATE",
    72 "KDC_ERR_REVOKED_CERTIFICATE", 73 "KDC_ERR_REVOCATION_STATUS_UNKNOWN",
    74 "KDC_ERR_REVOCATION_STATUS_UNAVAILABLE", 75 "KDC_ERR_CLIENT_NAME_MISMATCH", 76 "KDC_ERR_KDC_NAME_MISMATCH",
];

static PRINCIPAL_TYPE: Component = field!("" sequence![
    field!("name-type" explicit!(0 field!("" INTEGER))),
    field!("name-string" explicit!(1 field!("" sequence_of!(field!("kerberosString" GENERAL_STRING)))) => "" Joined),
]);

fn principal() -> &'static Component {
    &PRINCIPAL_TYPE
}

/// An EncryptedData (RFC 4120 5.2.9).
static ENCRYPTED_TYPE: Component = field!("" sequence![
    field!("etype" explicit!(0 field!("" INTEGER)) => "Encryption" NumberOf(ENCRYPTION_TYPES)),
    optional!("kvno" explicit!(1 field!("" INTEGER)) => "Key version" Number),
    field!("cipher" explicit!(2 field!("" OCTET_STRING)) => "Ciphertext" Length),
]);

fn encrypted() -> &'static Component {
    &ENCRYPTED_TYPE
}

/// A HostAddress (RFC 4120 5.2.5).
static HOST_ADDRESS_TYPE: Component = field!("" sequence![
    field!("addr-type" explicit!(0 field!("" INTEGER))),
    field!("address" explicit!(1 field!("" OCTET_STRING))),
]);

fn host_address() -> &'static Component {
    &HOST_ADDRESS_TYPE
}

/// A Ticket (RFC 4120 5.3).
static TICKET_TYPE: Component = field!("" explicit!(Application 1 field!("" sequence![
    field!("tkt-vno" explicit!(0 field!("" INTEGER))),
    field!("realm" explicit!(1 field!("" GENERAL_STRING)) => "Realm" Text),
    field!("sname" explicit!(2 field!("" PRINCIPAL)) => "Server" Silent),
    field!("enc-part" explicit!(3 field!("" ENCRYPTED))),
])));

fn ticket() -> &'static Component {
    &TICKET_TYPE
}

/// A Ticket that nothing is around, so that its type names it.
static TICKET_ALONE_TYPE: Component = field!("ticket" TICKET => "Kerberos ticket" Title);

fn ticket_alone() -> &'static Component {
    &TICKET_ALONE_TYPE
}

/// An AP-REQ (RFC 4120 5.5.1).
static AP_REQUEST_TYPE: Component = field!("ap-req" explicit!(Application 14 field!("" sequence![
    field!("pvno" explicit!(0 field!("" INTEGER))),
    field!("msg-type" explicit!(1 field!("" INTEGER))),
    field!("ap-options" explicit!(2 field!("" BIT_STRING))),
    field!("ticket" explicit!(3 field!("" TICKET)) => "Ticket" Title),
    field!("authenticator" explicit!(4 field!("" ENCRYPTED)) => "Authenticator" Title),
])) => "Kerberos request (AP-REQ)" Title);

fn ap_request() -> &'static Component {
    &AP_REQUEST_TYPE
}

/// The value of a PA-DATA, by the content octets of its padata-type (RFC 4120 5.2.7).
const PREAUTHENTICATION: &[Selection] = &[
    selection!(b"\x01" field!("pa-tgs-req" AP_REQUEST)),
    selection!(b"\x02" field!("pa-enc-timestamp" ENCRYPTED)),
    selection!(b"\x0b" field!("etype-info" sequence_of!(field!("etype-info-entry" sequence![
        field!("etype" explicit!(0 field!("" INTEGER))),
        optional!("salt" explicit!(1 field!("" OCTET_STRING))),
    ])))),
    selection!(b"\x13" field!("etype-info2" sequence_of!(field!("etype-info2-entry" sequence![
        field!("etype" explicit!(0 field!("" INTEGER))),
        optional!("salt" explicit!(1 field!("" GENERAL_STRING))),
        optional!("s2kparams" explicit!(2 field!("" OCTET_STRING))),
    ])))),
];

const PADATA: Type = sequence_of!(field!("pa-data" sequence![
    field!("padata-type" tagged!(ContextSpecific 1 Constructed Inside::Begins(
        &[field!("" INTEGER)],
        PREAUTHENTICATION,
    ))),
    field!("padata-value" explicit!(2 field!("" string!(4 Inside::Chosen)))),
]));

const REQUEST_BODY: Type = sequence![
    field!("kdc-options" explicit!(0 field!("" BIT_STRING))),
    optional!("cname" explicit!(1 field!("" PRINCIPAL)) => "Client" Silent),
    field!("realm" explicit!(2 field!("" GENERAL_STRING)) => "Realm" Text),
    optional!("sname" explicit!(3 field!("" PRINCIPAL)) => "Server" Silent),
    optional!("from" explicit!(4 field!("" GENERALIZED_TIME)) => "From" GeneralizedTime),
    field!("till" explicit!(5 field!("" GENERALIZED_TIME)) => "Till" GeneralizedTime),
    optional!("rtime" explicit!(6 field!("" GENERALIZED_TIME)) => "Renewable till" GeneralizedTime),
    field!("nonce" explicit!(7 field!("" INTEGER))),
    field!("etype" explicit!(8 field!("" sequence_of!(
        field!("int32" INTEGER => "Encryption" NumberOf(ENCRYPTION_TYPES))
    )))),
    optional!("addresses" explicit!(9 field!("" sequence_of!(field!("hostAddress" HOST_ADDRESS))))),
    optional!("enc-authorization-data" explicit!(10 field!("" ENCRYPTED)) => "Authorization data" Title),
    optional!("additional-tickets" explicit!(11 field!("" sequence_of!(
        field!("ticket" TICKET => "Additional ticket" Title)
    )))),
];

/// A KDC-REQ (RFC 4120 5.4.1).
static KDC_REQUEST_TYPE: Component = field!("" sequence![
    field!("pvno" explicit!(1 field!("" INTEGER))),
    field!("msg-type" explicit!(2 field!("" INTEGER))),
    optional!("padata" explicit!(3 field!("" PADATA)) => "" Skipped),
    field!("req-body" explicit!(4 field!("" REQUEST_BODY))),
]);

fn kdc_request() -> &'static Component {
    &KDC_REQUEST_TYPE
}

/// A KDC-REP (RFC 4120 5.4.2).
static KDC_REPLY_TYPE: Component = field!("" sequence![
    field!("pvno" explicit!(0 field!("" INTEGER))),
    field!("msg-type" explicit!(1 field!("" INTEGER))),
    optional!("padata" explicit!(2 field!("" PADATA)) => "" Skipped),
    field!("crealm" explicit!(3 field!("" GENERAL_STRING)) => "Realm" Text),
    field!("cname" explicit!(4 field!("" PRINCIPAL)) => "Client" Silent),
    field!("ticket" explicit!(5 field!("" TICKET)) => "Ticket" Title),
    field!("enc-part" explicit!(6 field!("" ENCRYPTED)) => "Encrypted part" Title),
]);

fn kdc_reply() -> &'static Component {
    &KDC_REPLY_TYPE
}

/// An AS-REQ: a request for a ticket-granting ticket (RFC 4120 5.4.1).
static AS_REQUEST_TYPE: Component =
    field!("as-req" explicit!(Application 10 field!("" KDC_REQUEST)) => "Kerberos request (AS-REQ)" Title);

fn as_request() -> &'static Component {
    &AS_REQUEST_TYPE
}

/// An AS-REP: the reply to an AS-REQ (RFC 4120 5.4.2).
static AS_REPLY_TYPE: Component =
    field!("as-rep" explicit!(Application 11 field!("" KDC_REPLY)) => "Kerberos reply (AS-REP)" Title);

fn as_reply() -> &'static Component {
    &AS_REPLY_TYPE
}

/// A TGS-REQ: a request for a ticket (RFC 4120 5.4.1).
static TGS_REQUEST_TYPE: Component =
    field!("tgs-req" explicit!(Application 12 field!("" KDC_REQUEST)) => "Kerberos request (TGS-REQ)" Title);

fn tgs_request() -> &'static Component {
    &TGS_REQUEST_TYPE
}

/// A TGS-REP: the reply to a TGS-REQ (RFC 4120 5.4.2).
static TGS_REPLY_TYPE: Component =
    field!("tgs-rep" explicit!(Application 13 field!("" KDC_REPLY)) => "Kerberos reply (TGS-REP)" Title);

fn tgs_reply() -> &'static Component {
    &TGS_REPLY_TYPE
}

/// An AP-REP: the reply to an AP-REQ (RFC 4120 5.5.2).
static AP_REPLY_TYPE: Component = field!("ap-rep" explicit!(Application 15 field!("" sequence![
    field!("pvno" explicit!(0 field!("" INTEGER))),
    field!("msg-type" explicit!(1 field!("" INTEGER))),
    field!("enc-part" explicit!(2 field!("" ENCRYPTED)) => "Encrypted part" Title),
])) => "Kerberos reply (AP-REP)" Title);

fn ap_reply() -> &'static Component {
    &AP_REPLY_TYPE
}

/// A KRB-SAFE-BODY (RFC 4120 5.6.1).
const SAFE_BODY: Type = sequence![
    field!("user-data" explicit!(0 field!("" OCTET_STRING)) => "Data" Octets),
    optional!("timestamp" explicit!(1 field!("" GENERALIZED_TIME)) => "Time" GeneralizedTime),
    optional!("usec" explicit!(2 field!("" INTEGER)) => "Microseconds" Number),
    optional!("seq-number" explicit!(3 field!("" INTEGER)) => "Sequence number" Number),
    field!("s-address" explicit!(4 field!("" HOST_ADDRESS))),
    optional!("r-address" explicit!(5 field!("" HOST_ADDRESS))),
];

/// A KRB-SAFE: a message with a checksum (RFC 4120 5.6.1).
static KRB_SAFE_TYPE: Component = field!("krb-safe" explicit!(Application 20 field!("" sequence![
    field!("pvno" explicit!(0 field!("" INTEGER))),
    field!("msg-type" explicit!(1 field!("" INTEGER))),
    field!("safe-body" explicit!(2 field!("" SAFE_BODY))),
    field!("cksum" explicit!(3 field!("" sequence![
        field!("cksumtype" explicit!(0 field!("" INTEGER)) => "Checksum type" Number),
        field!("checksum" explicit!(1 field!("" OCTET_STRING)) => "Checksum" Hex),
    ]))),
])) => "Kerberos message (KRB-SAFE)" Title);

fn krb_safe() -> &'static Component {
    &KRB_SAFE_TYPE
}

/// A KRB-PRIV: an encrypted message (RFC 4120 5.7.1). No component has the tag `[2]`.
static KRB_PRIVATE_TYPE: Component = field!("krb-priv" explicit!(Application 21 field!("" sequence![
    field!("pvno" explicit!(0 field!("" INTEGER))),
    field!("msg-type" explicit!(1 field!("" INTEGER))),
    field!("enc-part" explicit!(3 field!("" ENCRYPTED)) => "Encrypted part" Title),
])) => "Kerberos message (KRB-PRIV)" Title);

fn krb_private() -> &'static Component {
    &KRB_PRIVATE_TYPE
}

/// A KRB-CRED: a message with tickets (RFC 4120 5.8.1).
static KRB_CREDENTIALS_TYPE: Component =
    field!("krb-cred" explicit!(Application 22 field!("" sequence![
    field!("pvno" explicit!(0 field!("" INTEGER))),
    field!("msg-type" explicit!(1 field!("" INTEGER))),
    field!("tickets" explicit!(2 field!("" sequence_of!(field!("ticket" TICKET => "Ticket" Title))))),
    field!("enc-part" explicit!(3 field!("" ENCRYPTED)) => "Encrypted part" Title),
])) => "Kerberos message (KRB-CRED)" Title);

fn krb_credentials() -> &'static Component {
    &KRB_CREDENTIALS_TYPE
}

/// A KRB-ERROR: an error (RFC 4120 5.9.1).
static KRB_ERROR_TYPE: Component = field!("krb-error" explicit!(Application 30 field!("" sequence![
    field!("pvno" explicit!(0 field!("" INTEGER))),
    field!("msg-type" explicit!(1 field!("" INTEGER))),
    optional!("ctime" explicit!(2 field!("" GENERALIZED_TIME)) => "Client time" GeneralizedTime),
    optional!("cusec" explicit!(3 field!("" INTEGER)) => "Client microseconds" Number),
    field!("stime" explicit!(4 field!("" GENERALIZED_TIME)) => "Server time" GeneralizedTime),
    field!("susec" explicit!(5 field!("" INTEGER)) => "Server microseconds" Number),
    field!("error-code" explicit!(6 field!("" INTEGER)) => "Error" NumberOf(ERRORS)),
    optional!("crealm" explicit!(7 field!("" GENERAL_STRING)) => "Client realm" Text),
    optional!("cname" explicit!(8 field!("" PRINCIPAL)) => "Client" Silent),
    field!("realm" explicit!(9 field!("" GENERAL_STRING)) => "Realm" Text),
    field!("sname" explicit!(10 field!("" PRINCIPAL)) => "Server" Silent),
    optional!("e-text" explicit!(11 field!("" GENERAL_STRING)) => "Text" Text),
    optional!("e-data" explicit!(12 field!("" OCTET_STRING)) => "Data" Length),
])) => "Kerberos error (KRB-ERROR)" Title);

fn krb_error() -> &'static Component {
    &KRB_ERROR_TYPE
}

/// The types of this module, in the order of their numbers.
pub(crate) fn types() -> [&'static Component; 17] {
    [
        as_request(),
        as_reply(),
        tgs_request(),
        tgs_reply(),
        kdc_request(),
        kdc_reply(),
        ticket(),
        ap_request(),
        ap_reply(),
        krb_safe(),
        krb_private(),
        krb_credentials(),
        krb_error(),
        encrypted(),
        principal(),
        host_address(),
        ticket_alone(),
    ]
}
