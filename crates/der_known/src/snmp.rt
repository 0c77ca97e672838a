//! Messages of SNMP (RFC 1157, RFC 1901, RFC 3412, RFC 3414, RFC 3416).
use crate::numbered::{PDUS, VAR_BIND};
use crate::universal::{INTEGER, NULL, OBJECT_IDENTIFIER, OCTET_STRING};
use der_schema::schema::{Component, Inside, Type};
use der_schema::words::NumberName;
use der_schema::{field, implicit, names, sequence, sequence_of, string, tagged};

/// A value of an object (RFC 3416 3).
const VALUE: Type = Type::Choice(&[
    field!("" INTEGER => "" "INTEGER" Number),
    field!("" OCTET_STRING => "" "OCTET STRING" Octets),
    field!("" OBJECT_IDENTIFIER => "" "OBJECT IDENTIFIER" Arcs),
    field!("" tagged!(Application 0 Either Inside::Free) => "" "IpAddress" Address),
    field!("" tagged!(Application 1 Primitive Inside::Free) => "" "Counter32" Number),
    field!("" tagged!(Application 2 Primitive Inside::Free) => "" "Gauge32" Number),
    field!("" tagged!(Application 3 Primitive Inside::Free) => "" "TimeTicks" Number),
    field!("" tagged!(Application 4 Either Inside::Free) => "" "Opaque" Hex),
    field!("" tagged!(Application 6 Primitive Inside::Free) => "" "Counter64" Number),
    field!("unSpecified" NULL => "" Word("NULL")),
    field!("noSuchObject" implicit!(0) => "" Word("noSuchObject")),
    field!("noSuchInstance" implicit!(1) => "" Word("noSuchInstance")),
    field!("endOfMibView" implicit!(2) => "" Word("endOfMibView")),
]);

/// A VarBind (RFC 3416 3).
static VAR_BIND_TYPE: Component = field!("varBind" sequence![
    field!("name" OBJECT_IDENTIFIER => "" Label),
    field!("value" VALUE)
]);

fn var_bind() -> &'static Component {
    &VAR_BIND_TYPE
}

const BINDINGS: Component =
    field!("variable-bindings" sequence_of!(field!("" VAR_BIND)) => "Variables" Count);

/// The names of error-status (RFC 1157 4.1.1, RFC 3416 3).
const ERRORS: &[NumberName] = names![
    0 "noError", 1 "tooBig", 2 "noSuchName", 3 "badValue", 4 "readOnly", 5 "genErr", 6 "noAccess", 7 "wrongType",
    8 "wrongLength", 9 "wrongEncoding", 10 "wrongValue", 11 "noCreation", 12 "inconsistentValue",
    13 "resourceUnavailable", 14 "commitFailed", 15 "undoFailed", 16 "authorizationError", 17 "notWritable",
    18 "inconsistentName",
];

/// The names of generic-trap (RFC 1157 4.1.6).
const TRAPS: &[NumberName] = names![
    0 "coldStart", 1 "warmStart", 2 "linkDown", 3 "linkUp", 4 "authenticationFailure", 5 "egpNeighborLoss",
    6 "enterpriseSpecific",
];

const PDU: Inside = Inside::Components(&[
    field!("request-id" INTEGER => "Request" Number),
    field!("error-status" INTEGER => "Error status" NumberOf(ERRORS)),
    field!("error-index" INTEGER => "Error index" Number),
    BINDINGS,
]);

const BULK: Inside = Inside::Components(&[
    field!("request-id" INTEGER => "Request" Number),
    field!("non-repeaters" INTEGER => "Non-repeaters" Number),
    field!("max-repetitions" INTEGER => "Max-repetitions" Number),
    BINDINGS,
]);

/// A trap of version 1 (RFC 1157 4.1.6).
const TRAP: Inside = Inside::Components(&[
    field!("enterprise" OBJECT_IDENTIFIER => "Enterprise" Arcs),
    field!("agent-addr" tagged!(Application 0 Either Inside::Free) => "Agent address" Address),
    field!("generic-trap" INTEGER => "Generic trap" NumberOf(TRAPS)),
    field!("specific-trap" INTEGER => "Specific trap" Number),
    field!("time-stamp" tagged!(Application 3 Primitive Inside::Free) => "Time stamp" Number),
    BINDINGS,
]);

/// The PDUs (RFC 1157 4.1, RFC 3416 3).
static PDUS_TYPE: Component = field!("pdu" Type::Choice(&[
    field!("get-request" implicit!(0 PDU) => "Operation" Word("GetRequest")),
    field!("get-next-request" implicit!(1 PDU) => "Operation" Word("GetNextRequest")),
    field!("response" implicit!(2 PDU) => "Operation" Word("Response")),
    field!("set-request" implicit!(3 PDU) => "Operation" Word("SetRequest")),
    field!("trap" implicit!(4 TRAP) => "Operation" Word("Trap")),
    field!("get-bulk-request" implicit!(5 BULK) => "Operation" Word("GetBulkRequest")),
    field!("inform-request" implicit!(6 PDU) => "Operation" Word("InformRequest")),
    field!("snmpV2-trap" implicit!(7 PDU) => "Operation" Word("SNMPv2-Trap")),
    field!("report" implicit!(8 PDU) => "Operation" Word("Report")),
]));

fn pdus() -> &'static Component {
    &PDUS_TYPE
}

/// A message of version 1 or 2c (RFC 1157 4, RFC 1901 3).
static SNMP_MESSAGE_TYPE: Component = field!("message" sequence![
    field!("version" INTEGER => "Version" NameOf(names![0 "1", 1 "2c"])),
    field!("community" OCTET_STRING => "Community" Octets),
    field!("data" PDUS),
] => "SNMP message" Title);

fn snmp_message() -> &'static Component {
    &SNMP_MESSAGE_TYPE
}

/// The parameters of the user-based security model (RFC 3414 2.4).
const USER_SECURITY: Component = field!("usmSecurityParameters" sequence![
    field!("msgAuthoritativeEngineID" OCTET_STRING => "Engine" Hex),
    field!("msgAuthoritativeEngineBoots" INTEGER => "Engine boots" Number),
    field!("msgAuthoritativeEngineTime" INTEGER => "Engine time" Number),
    field!("msgUserName" OCTET_STRING => "User" Octets),
    field!("msgAuthenticationParameters" OCTET_STRING),
    field!("msgPrivacyParameters" OCTET_STRING),
]);

/// A message of version 3 (RFC 3412 6).
static SNMP_V3_MESSAGE_TYPE: Component = field!("snmpv3Message" sequence![
    field!("msgVersion" INTEGER => "Version" Number),
    field!("msgGlobalData" sequence![
        field!("msgID" INTEGER => "Message" Number),
        field!("msgMaxSize" INTEGER => "Largest message" Number),
        field!("msgFlags" OCTET_STRING => "Flags" Hex),
        field!("msgSecurityModel" INTEGER => "Security model" Number),
    ]),
    field!("msgSecurityParameters" string!(4 Inside::Holds(&[USER_SECURITY]))),
    field!("msgData" Type::Choice(&[
        field!("plaintext" sequence![
            field!("contextEngineID" OCTET_STRING => "Context engine" Hex),
            field!("contextName" OCTET_STRING => "Context" Octets),
            field!("data" PDUS),
        ]),
        field!("encryptedPDU" OCTET_STRING => "Encrypted PDU" Length),
    ])),
] => "SNMP message" Title);

fn snmp_v3_message() -> &'static Component {
    &SNMP_V3_MESSAGE_TYPE
}

/// The types of this module, in the order of their numbers.
pub(crate) fn types() -> [&'static Component; 4] {
    [snmp_message(), snmp_v3_message(), pdus(), var_bind()]
}
