//! Time stamps (RFC 3161).
use crate::extensions::EXTENSION_LIST;
use crate::numbered::{CONTENT_INFO, DIGEST_ALGORITHM, GENERAL_NAME};
use crate::universal::{
    BIT_STRING, BOOLEAN, GENERALIZED_TIME, INTEGER, OBJECT_IDENTIFIER, OCTET_STRING, UTF8_STRING,
};
use der_schema::schema::{Component, Type};
use der_schema::{explicit, field, implicit, optional, sequence, sequence_of};

const MESSAGE_IMPRINT: Type = sequence![
    field!("hashAlgorithm" DIGEST_ALGORITHM),
    field!("hashedMessage" OCTET_STRING),
];

/// A TSTInfo (RFC 3161 2.4.2).
static TIME_STAMP_INFO_TYPE: Component = field!("" sequence![
    field!("version" INTEGER),
    field!("policy" OBJECT_IDENTIFIER),
    field!("messageImprint" MESSAGE_IMPRINT),
    field!("serialNumber" INTEGER),
    field!("genTime" GENERALIZED_TIME),
    optional!("accuracy" sequence![
        optional!("seconds" INTEGER),
        optional!("millis" implicit!(0)),
        optional!("micros" implicit!(1)),
    ]),
    optional!("ordering" BOOLEAN),
    optional!("nonce" INTEGER),
    optional!("tsa" explicit!(0 field!("" GENERAL_NAME))),
    optional!("extensions" implicit!(1 EXTENSION_LIST)),
]);

fn time_stamp_info() -> &'static Component {
    &TIME_STAMP_INFO_TYPE
}

/// A TimeStampReq: a request for a time stamp (RFC 3161 2.4.1).
static TIME_STAMP_REQUEST_TYPE: Component = field!("timeStampReq" sequence![
    field!("version" INTEGER),
    field!("messageImprint" MESSAGE_IMPRINT),
    optional!("reqPolicy" OBJECT_IDENTIFIER),
    optional!("nonce" INTEGER),
    optional!("certReq" BOOLEAN),
    optional!("extensions" implicit!(0 EXTENSION_LIST)),
]);

fn time_stamp_request() -> &'static Component {
    &TIME_STAMP_REQUEST_TYPE
}

/// A TimeStampResp: a response with a time stamp (RFC 3161 2.4.2).
static TIME_STAMP_RESPONSE_TYPE: Component = field!("timeStampResp" sequence![
    field!("status" sequence![
            field!("status" INTEGER),
            optional!("statusString" sequence_of!(field!("" UTF8_STRING))),
            optional!("failInfo" BIT_STRING),
        ]),
    optional!("timeStampToken" CONTENT_INFO),
]);

fn time_stamp_response() -> &'static Component {
    &TIME_STAMP_RESPONSE_TYPE
}

/// The types of this module, in the order of their numbers.
pub(crate) fn types() -> [&'static Component; 3] {
    [
        time_stamp_request(),
        time_stamp_response(),
        time_stamp_info(),
    ]
}
