//! Messages of LDAP (RFC 4511).
use crate::numbered::{
    AUTHENTICATION, CHANGE, CHANGED, DELETES_OLD_NAME, DEREFERENCING, DIAGNOSTIC_MESSAGE, FILTER,
    LDAP_ASSERTION, LDAP_IDENTIFIER, LDAP_NAME, LDAP_OPERATION, LDAP_RESULT_CODE, MATCHED_NAME,
    MECHANISM, NEW_NAME, NEW_SUPERIOR, PARTIAL_ATTRIBUTE, REFERRAL, SCOPE, SELECTOR, SIZE_LIMIT,
    TIME_LIMIT, TYPES_ONLY,
};
use crate::universal::{BOOLEAN, ENUMERATED, INTEGER, OCTET_STRING};
use der_schema::schema::{Component, Inside, Type};
use der_schema::words::NumberName;
use der_schema::{
    explicit, field, implicit, names, optional, sequence, sequence_of, set_of, tagged,
};

const FILTERS: Inside = Inside::Each(&field!("" FILTER));

const ASSERTION: Inside = Inside::Components(&[
    field!("attributeDesc" OCTET_STRING => "Attribute" Text),
    field!("assertionValue" OCTET_STRING => "Value" Text),
]);

/// A Filter (RFC 4511 4.5.1).
static FILTER_TYPE: Component = field!("filter" Type::Choice(&[
    field!("and" implicit!(0 FILTERS)),
    field!("or" implicit!(1 FILTERS)),
    field!("not" explicit!(2 field!("" FILTER))),
    field!("equalityMatch" implicit!(3 ASSERTION)),
    field!("substrings" implicit!(4 Inside::Components(&[
        field!("type" OCTET_STRING),
        field!("substrings" sequence_of!(field!("substring" Type::Choice(&[
            field!("initial" implicit!(0 string)),
            field!("any" implicit!(1 string)),
            field!("final" implicit!(2 string)),
        ])))),
    ]))),
    field!("greaterOrEqual" implicit!(5 ASSERTION)),
    field!("lessOrEqual" implicit!(6 ASSERTION)),
    field!("present" implicit!(7 string)),
    field!("approxMatch" implicit!(8 ASSERTION)),
    field!("extensibleMatch" implicit!(9 Inside::Components(&[
        optional!("matchingRule" implicit!(1 string)),
        optional!("type" implicit!(2 string)),
        field!("matchValue" implicit!(3 string)),
        optional!("dnAttributes" implicit!(4)),
    ]))),
]));

fn filter() -> &'static Component {
    &FILTER_TYPE
}

/// The names of resultCode (RFC 4511 4.1.9).
const RESULTS: &[NumberName] = names![
    0 "success", 1 "operationsError", 2 "protocolError", 3 "timeLimitExceeded", 4 "sizeLimitExceeded",
    5 "compareFalse", 6 "compareTrue", 7 "authMethodNotSupported", 8 "strongerAuthRequired", 10 "referral",
    11 "adminLimitExceeded", 12 "unavailableCriticalExtension", 13 "confidentialityRequired",
    14 "saslBindInProgress", 16 "noSuchAttribute", 17 "undefinedAttributeType", 18 "inappropriateMatching",
    19 "constraintViolation", 20 "attributeOrValueExists", 21 "invalidAttributeSyntax", 32 "noSuchObject",
    33 "aliasProblem", 34 "invalidDNSyntax", 36 "aliasDereferencingProblem", 48 "inappropriateAuthentication",
    49 "invalidCredentials", 50 "insufficientAccessRights", 51 "busy", 52 "unavailable", 53 "unwillingToPerform",
    54 "loopDetect", 64 "namingViolation", 65 "objectClassViolation", 66 "notAllowedOnNonLeaf", 67 "notAllowedOnRDN",
    68 "entryAlreadyExists", 69 "objectClassModsProhibited", 71 "affectsMultipleDSAs", 80 "other",
];

static RESULT_CODE_TYPE: Component = field!("resultCode" ENUMERATED => "Result" NumberOf(RESULTS));

fn result_code() -> &'static Component {
    &RESULT_CODE_TYPE
}

static NAME_TYPE: Component = field!("" OCTET_STRING => "Name" Text);

static IDENTIFIER_TYPE: Component = field!("" implicit!(0 string) => "OID" Text);

static NEW_NAME_TYPE: Component = field!("newrdn" OCTET_STRING => "New name" Text);

static DELETES_OLD_NAME_TYPE: Component =
    field!("deleteoldrdn" BOOLEAN => "Delete old name" Boolean);

static LDAP_ASSERTION_TYPE: Component = field!("ava" tagged!(Universal 16 Constructed ASSERTION));

static NEW_SUPERIOR_TYPE: Component =
    field!("newSuperior" implicit!(0 string) => "New superior" Text);

static MECHANISM_TYPE: Component = field!("mechanism" OCTET_STRING => "Mechanism" Text);

static SELECTOR_TYPE: Component = field!("selector" OCTET_STRING => "Attribute" Text);

static MATCHED_NAME_TYPE: Component = field!("matchedDN" OCTET_STRING => "Matched name" Text);

static DIAGNOSTIC_MESSAGE_TYPE: Component =
    field!("diagnosticMessage" OCTET_STRING => "Diagnostic message" Text);

static REFERRAL_TYPE: Component = field!("referral" implicit!(3 Inside::Each(
    &field!("uri" OCTET_STRING => "Referral" Text)
)));

/// The components of an LDAPResult (RFC 4511 4.1.9).
const RESULT_CODE: Component = field!("" LDAP_RESULT_CODE);

const MATCHED: Component = field!("" MATCHED_NAME);

const DIAGNOSTIC: Component = field!("" DIAGNOSTIC_MESSAGE);

const REFERRALS: Component = optional!("" REFERRAL);

const RESULT: Inside = Inside::Components(&[RESULT_CODE, MATCHED, DIAGNOSTIC, REFERRALS]);

/// A PartialAttribute (RFC 4511 4.1.7).
static PARTIAL_ATTRIBUTE_TYPE: Component = field!("attribute" sequence![
    field!("type" OCTET_STRING => "Attribute" Text heads),
    field!("vals" set_of!(field!("value" OCTET_STRING => "Value" TextOrHex))),
]);

fn partial_attribute() -> &'static Component {
    &PARTIAL_ATTRIBUTE_TYPE
}

const ATTRIBUTES: Type = sequence_of!(field!("" PARTIAL_ATTRIBUTE));

static AUTHENTICATION_TYPE: Component = field!("authentication" Type::Choice(&[
    field!("simple" implicit!(0 string)),
    field!("sasl" implicit!(3 Inside::Components(&[
        field!("" MECHANISM),
        optional!("credentials" OCTET_STRING),
    ]))),
]));

fn authentication() -> &'static Component {
    &AUTHENTICATION_TYPE
}

const BIND_REQUEST: Inside = Inside::Components(&[
    field!("version" INTEGER => "Version" Number),
    field!("name" LDAP_NAME),
    field!("" AUTHENTICATION),
]);

const SCOPES: &[NumberName] = names![0 "baseObject", 1 "singleLevel", 2 "wholeSubtree"];

const ALIASES: &[NumberName] = names![
    0 "neverDerefAliases", 1 "derefInSearching", 2 "derefFindingBaseObj", 3 "derefAlways",
];

static SCOPE_TYPE: Component = field!("scope" ENUMERATED => "Scope" NumberOf(SCOPES));

static DEREFERENCING_TYPE: Component =
    field!("derefAliases" ENUMERATED => "Aliases" NumberOf(ALIASES));

static SIZE_LIMIT_TYPE: Component = field!("sizeLimit" INTEGER => "Size limit" Number);

static TIME_LIMIT_TYPE: Component = field!("timeLimit" INTEGER => "Time limit" Number);

static TYPES_ONLY_TYPE: Component = field!("typesOnly" BOOLEAN => "Types only" Boolean);

const SEARCH_REQUEST: Inside = Inside::Components(&[
    field!("baseObject" LDAP_NAME),
    field!("" SCOPE),
    field!("" DEREFERENCING),
    field!("" SIZE_LIMIT),
    field!("" TIME_LIMIT),
    field!("" TYPES_ONLY),
    field!("filter" FILTER => "Filter" Filter),
    field!("attributes" sequence_of!(field!("" SELECTOR))),
]);

/// The names of a change's operation (RFC 4511 4.6, RFC 4525 3).
const CHANGES: &[NumberName] = names![0 "add", 1 "delete", 2 "replace", 3 "increment"];

static CHANGE_TYPE: Component = field!("operation" ENUMERATED => "Change" NumberOf(CHANGES));

static CHANGED_TYPE: Component = field!("changes" sequence_of!(field!("change" sequence![
    field!("" CHANGE),
    field!("modification" PARTIAL_ATTRIBUTE),
])));

fn changed() -> &'static Component {
    &CHANGED_TYPE
}

const MODIFY_REQUEST: Inside = Inside::Components(&[
    field!("object" LDAP_NAME),
    field!("" CHANGED),
]);

/// The operations (RFC 4511 4.1.1).
static OPERATION_TYPE: Component = field!("" Type::Choice(&[
    field!("bindRequest" tagged!(Application 0 Constructed BIND_REQUEST) => "Operation" Word("BindRequest")),
    field!("bindResponse" tagged!(Application 1 Constructed Inside::Components(&[
        RESULT_CODE,
        MATCHED,
        DIAGNOSTIC,
        REFERRALS,
        optional!("serverSaslCreds" implicit!(7 string)),
    ])) => "Operation" Word("BindResponse")),
    field!("unbindRequest" tagged!(Application 2 Primitive Inside::Free) => "Operation" Word("UnbindRequest")),
    field!("searchRequest" tagged!(Application 3 Constructed SEARCH_REQUEST) => "Operation" Word("SearchRequest")),
    field!("searchResEntry" tagged!(Application 4 Constructed Inside::Components(&[
        field!("objectName" LDAP_NAME),
        field!("attributes" sequence_of!(field!("partialAttribute" PARTIAL_ATTRIBUTE))),
    ])) => "Operation" Word("SearchResultEntry")),
    field!("searchResDone" tagged!(Application 5 Constructed RESULT) => "Operation" Word("SearchResultDone")),
    field!("searchResRef" tagged!(Application 19 Constructed Inside::Each(
        &field!("uri" OCTET_STRING => "Reference" Text)
    )) => "Operation" Word("SearchResultReference")),
    field!("modifyRequest" tagged!(Application 6 Constructed MODIFY_REQUEST) => "Operation" Word("ModifyRequest")),
    field!("modifyResponse" tagged!(Application 7 Constructed RESULT) => "Operation" Word("ModifyResponse")),
    field!("addRequest" tagged!(Application 8 Constructed Inside::Components(&[
        field!("entry" LDAP_NAME),
        field!("attributes" ATTRIBUTES),
    ])) => "Operation" Word("AddRequest")),
    field!("addResponse" tagged!(Application 9 Constructed RESULT) => "Operation" Word("AddResponse")),
    field!("delRequest" tagged!(Application 10 Either Inside::Free) => "Operation" "DelRequest" Text),
    field!("delResponse" tagged!(Application 11 Constructed RESULT) => "Operation" Word("DelResponse")),
    field!("modDNRequest" tagged!(Application 12 Constructed Inside::Components(&[
        field!("entry" LDAP_NAME),
        field!("" NEW_NAME),
        field!("" DELETES_OLD_NAME),
        optional!("" NEW_SUPERIOR),
    ])) => "Operation" Word("ModifyDNRequest")),
    field!("modDNResponse" tagged!(Application 13 Constructed RESULT) => "Operation" Word("ModifyDNResponse")),
    field!("compareRequest" tagged!(Application 14 Constructed Inside::Components(&[
        field!("entry" LDAP_NAME),
        field!("" LDAP_ASSERTION),
    ])) => "Operation" Word("CompareRequest")),
    field!("compareResponse" tagged!(Application 15 Constructed RESULT) => "Operation" Word("CompareResponse")),
    field!("abandonRequest" tagged!(Application 16 Primitive Inside::Free) => "Operation" "AbandonRequest" Number),
    field!("extendedReq" tagged!(Application 23 Constructed Inside::Components(&[
        field!("requestName" LDAP_IDENTIFIER),
        optional!("requestValue" implicit!(1 string)),
    ])) => "Operation" Word("ExtendedRequest")),
    field!("extendedResp" tagged!(Application 24 Constructed Inside::Components(&[
        RESULT_CODE,
        MATCHED,
        DIAGNOSTIC,
        REFERRALS,
        optional!("responseName" implicit!(10 string) => "OID" Text),
        optional!("responseValue" implicit!(11 string)),
    ])) => "Operation" Word("ExtendedResponse")),
    field!("intermediateResponse" tagged!(Application 25 Constructed Inside::Components(&[
        optional!("responseName" LDAP_IDENTIFIER),
        optional!("responseValue" implicit!(1 string)),
    ])) => "Operation" Word("IntermediateResponse")),
]));

fn operation() -> &'static Component {
    &OPERATION_TYPE
}

/// A message of LDAP (RFC 4511 4.1.1).
static LDAP_MESSAGE_TYPE: Component = field!("ldapMessage" sequence![
    field!("messageID" INTEGER => "Message" Number),
    field!("protocolOp" LDAP_OPERATION),
    optional!("controls" implicit!(0 Inside::Each(&field!("control" sequence![
            field!("controlType" OCTET_STRING => "Control" Text heads),
            optional!("criticality" BOOLEAN => "Critical" Boolean),
            optional!("controlValue" OCTET_STRING => "Value" Octets),
        ])))),
] => "LDAP message" Title);

fn ldap_message() -> &'static Component {
    &LDAP_MESSAGE_TYPE
}

/// The types of this module, in the order of their numbers.
pub(crate) fn types() -> [&'static Component; 24] {
    [
        ldap_message(),
        filter(),
        result_code(),
        &MATCHED_NAME_TYPE,
        &DIAGNOSTIC_MESSAGE_TYPE,
        &REFERRAL_TYPE,
        partial_attribute(),
        operation(),
        &NAME_TYPE,
        &SCOPE_TYPE,
        &DEREFERENCING_TYPE,
        &CHANGE_TYPE,
        &IDENTIFIER_TYPE,
        &NEW_NAME_TYPE,
        &NEW_SUPERIOR_TYPE,
        &MECHANISM_TYPE,
        &SELECTOR_TYPE,
        authentication(),
        &SIZE_LIMIT_TYPE,
        &TIME_LIMIT_TYPE,
        &TYPES_ONLY_TYPE,
        &LDAP_ASSERTION_TYPE,
        &DELETES_OLD_NAME_TYPE,
        changed(),
    ]
}
