//! Requests and responses of OCSP, the status of certificates (RFC 6960 4).
use crate::algorithms::SIGNATURE;
use crate::extensions::EXTENSIONS;
use crate::numbered::{CERTIFICATE, DIGEST_ALGORITHM, GENERAL_NAME, NAME, SIGNATURE_ALGORITHM};
use crate::universal::{ENUMERATED, GENERALIZED_TIME, INTEGER, OCTET_STRING};
use der_schema::schema::{Component, Inside, Selection, Type};
use der_schema::{
    explicit, field, implicit, optional, selection, sequence, sequence_of, string, tagged,
};

const CERT_ID: Type = sequence![
    field!("hashAlgorithm" DIGEST_ALGORITHM),
    field!("issuerNameHash" OCTET_STRING),
    field!("issuerKeyHash" OCTET_STRING),
    field!("serialNumber" INTEGER),
];

const CERTIFICATES: Type = sequence_of!(field!("" CERTIFICATE));

const SINGLE_RESPONSE: Type = sequence![
    field!("certID" CERT_ID),
    field!("certStatus" Type::Choice(&[
        field!("good" implicit!(0)),
        field!("revoked" implicit!(1 Inside::Components(&[
            field!("revocationTime" GENERALIZED_TIME),
            optional!("revocationReason" explicit!(0 field!("" ENUMERATED))),
        ]))),
        field!("unknown" implicit!(2)),
    ])),
    field!("thisUpdate" GENERALIZED_TIME),
    optional!("nextUpdate" explicit!(0 field!("" GENERALIZED_TIME))),
    optional!("singleExtensions" explicit!(1 field!("" EXTENSIONS))),
];

const RESPONSE_DATA: Type = sequence![
    optional!("version" explicit!(0 field!("" INTEGER))),
    field!("responderID" Type::Choice(&[
        field!("byName" explicit!(1 field!("" NAME))),
        field!("byKey" explicit!(2 field!("" OCTET_STRING))),
    ])),
    field!("producedAt" GENERALIZED_TIME),
    field!("responses" sequence_of!(field!("singleResponse" SINGLE_RESPONSE))),
    optional!("responseExtensions" explicit!(1 field!("" EXTENSIONS))),
];

/// The response, by its type (RFC 6960 4.2.1).
const RESPONSES: &[Selection] = &[
    // id-pkix-ocsp-basic
    selection!(b"\x2b\x06\x01\x05\x05\x07\x30\x01\x01" field!("basicOCSPResponse" sequence![
        field!("tbsResponseData" RESPONSE_DATA),
        field!("signatureAlgorithm" SIGNATURE_ALGORITHM),
        field!("signature" SIGNATURE),
        optional!("certs" explicit!(0 field!("" CERTIFICATES))),
    ])),
];

/// An OCSPRequest: a request for the status of certificates (RFC 6960 4.1.1).
static OCSP_REQUEST_TYPE: Component = field!("ocspRequest" sequence![
    field!("tbsRequest" sequence![
            optional!("version" explicit!(0 field!("" INTEGER))),
            optional!("requestorName" explicit!(1 field!("" GENERAL_NAME))),
            field!("requestList" sequence_of!(field!("request" sequence![
                field!("reqCert" CERT_ID),
                optional!("singleRequestExtensions" explicit!(0 field!("" EXTENSIONS))),
            ]))),
            optional!("requestExtensions" explicit!(2 field!("" EXTENSIONS))),
        ]),
    optional!("optionalSignature" explicit!(0 field!("" sequence![
            field!("signatureAlgorithm" SIGNATURE_ALGORITHM),
            field!("signature" SIGNATURE),
            optional!("certs" explicit!(0 field!("" CERTIFICATES))),
        ]))),
]);

fn ocsp_request() -> &'static Component {
    &OCSP_REQUEST_TYPE
}

/// An OCSPResponse: the status of certificates (RFC 6960 4.2.1).
static OCSP_RESPONSE_TYPE: Component = field!("ocspResponse" sequence![
    field!("responseStatus" ENUMERATED),
    optional!("responseBytes" explicit!(0 field!("" sequence![
            field!("responseType" tagged!(Universal 6 Primitive Inside::Selects(RESPONSES))),
            field!("response" string!(4 Inside::Chosen)),
        ]))),
]);

fn ocsp_response() -> &'static Component {
    &OCSP_RESPONSE_TYPE
}

/// The types of this module, in the order of their numbers.
pub(crate) fn types() -> [&'static Component; 2] {
    [ocsp_request(), ocsp_response()]
}
