//! The subcommands and their arguments, as the help prints them.

/// The kind of an argument.
#[derive(Clone, Copy)]
pub(crate) enum Kind {
    /// A name alone, such as `--der`.
    Flag,
    /// A name and a number.
    Number,
    /// A name and a word.
    Word,
    /// A name and the form of an input.
    Form,
    /// An optional word without a name.
    File,
    /// Any number of words without a name.
    Files,
    /// A name and a word. It may be given again.
    Words,
    /// A word without a name.
    Required,
}

/// An argument of a subcommand.
#[derive(Clone, Copy)]
pub(crate) struct Argument {
    pub name: &'static str,
    /// The letter that may be used for the name.
    pub letter: Option<char>,
    /// The name of its value in the help.
    pub value: Option<&'static str>,
    pub help: &'static str,
    pub kind: Kind,
    /// The argument that excludes this one.
    pub conflict: Option<&'static str>,
    /// The argument that this one needs.
    pub needs: Option<&'static str>,
}

/// A subcommand.
#[derive(Clone, Copy)]
pub(crate) struct Subcommand {
    pub name: &'static str,
    /// What it does, for the help.
    pub about: &'static str,
    /// Further text at the end of its help.
    pub notes: Option<&'static str>,
    pub arguments: &'static [Argument],
}

/// The subcommands, in the order of the help.
pub(crate) fn subcommands() -> [&'static Subcommand; 10] {
    [
        tree(),
        show(),
        check(),
        canon(),
        json(),
        get(),
        diff(),
        text(),
        octets(),
        asn1(),
    ]
}

static TREE_COMMAND: Subcommand = Subcommand {
    name: "tree",
    about: "Print a line for each element, with its offset, lengths, type and value",
    notes: Some(PATH_NOTES),
    arguments: &[
        DER, AS, ASN1, NAMES, FULL, WIDTH, DEPTH, OFFSET, PATH, NO_INSIDE, RECURSIVE, FROM, FILES,
    ],
};

fn tree() -> &'static Subcommand {
    &TREE_COMMAND
}

static SHOW_COMMAND: Subcommand = Subcommand {
    name: "show",
    about: "Print a summary of certificates, CRLs, CSRs, keys and messages",
    notes: Some(SHOW_NOTES),
    arguments: &[AS_SHOWN, ASN1, JSON, STRICT, NOW, RECURSIVE, FROM, FILES],
};

fn show() -> &'static Subcommand {
    &SHOW_COMMAND
}

static CHECK_COMMAND: Subcommand = Subcommand {
    name: "check",
    about: "Print a line for each file that isn't DER",
    notes: None,
    arguments: &[BER, AS_TYPE, ASN1, QUIET, RECURSIVE, FROM, FILES],
};

fn check() -> &'static Subcommand {
    &CHECK_COMMAND
}

static CANON_COMMAND: Subcommand = Subcommand {
    name: "canon",
    about: "Convert a BER file to DER",
    notes: Some(CANON_NOTES),
    arguments: &[FROM, FILE],
};

fn canon() -> &'static Subcommand {
    &CANON_COMMAND
}

static JSON_COMMAND: Subcommand = Subcommand {
    name: "json",
    about: "Print a line of JSON for each element",
    notes: Some(JSON_NOTES),
    arguments: &[
        DER, AS, ASN1, NAMES, OCTETS, DEPTH, OFFSET, PATH, NO_INSIDE, RECURSIVE, FROM, FILES,
    ],
};

fn json() -> &'static Subcommand {
    &JSON_COMMAND
}

static GET_COMMAND: Subcommand = Subcommand {
    name: "get",
    about: "Write the octets of the first element at a path or offset",
    notes: Some(PATH_NOTES),
    arguments: &[CONTENT, DER, AS, ASN1, FROM, GIVEN_FILE, PLACE],
};

fn get() -> &'static Subcommand {
    &GET_COMMAND
}

static DIFF_COMMAND: Subcommand = Subcommand {
    name: "diff",
    about: "Print the elements that differ between two files",
    notes: Some(DIFF_NOTES),
    arguments: &[
        DER, AS, ASN1, NAMES, FULL, WIDTH, NO_INSIDE, FROM, FIRST, SECOND,
    ],
};

fn diff() -> &'static Subcommand {
    &DIFF_COMMAND
}

static TEXT_COMMAND: Subcommand = Subcommand {
    name: "text",
    about: "Write a file as text to edit; octets turns it back",
    notes: Some(TEXT_NOTES),
    arguments: &[FROM, FILE],
};

fn text() -> &'static Subcommand {
    &TEXT_COMMAND
}

static OCTETS_COMMAND: Subcommand = Subcommand {
    name: "octets",
    about: "Write the octets of a text that text wrote",
    notes: None,
    arguments: &[FILE],
};

fn octets() -> &'static Subcommand {
    &OCTETS_COMMAND
}

static ASN1_COMMAND: Subcommand = Subcommand {
    name: "asn1",
    about: "Print the types that modules of ASN.1 define",
    notes: None,
    arguments: &[FILES],
};

fn asn1() -> &'static Subcommand {
    &ASN1_COMMAND
}

const SHOW_NOTES: &str = "\
Summarizes certificates, CRLs, CSRs, keys, and messages of SNMP, LDAP and
Kerberos. Other known types are printed as a tree. Signatures aren't verified.
docs/show-json.schema.json describes the members of --json.";

const CANON_NOTES: &str = "\
PEM stays PEM. These stay as they are, since they depend on the ASN.1 type: the
order of a SET OF, default values, and strings under an implicit tag.
If an element has no DER encoding, nothing is written and the status is 1.";

const PATH_NOTES: &str = "\
A path has names of fields, such as tbsCertificate.extensions[2].extnValue,
or types, such as SEQUENCE[0].INTEGER[1].";

const JSON_NOTES: &str = "\
docs/der-json.schema.json describes the members. --path takes the values of
path and field_path.";

const DIFF_NOTES: &str = "\
Elements that both files have in the same order are left out: as many as there
can be, unless more than 16 are equal. Offsets and length octets don't count.
The status is 0 if the elements are the same, 1 if they differ, 2 on an error.";

const TEXT_NOTES: &str = "\
The text keeps the form of each length. docs/TEXT.md describes the grammar.";

/// A flag without a name, from which others are made.
const FLAG: Argument = Argument {
    name: "",
    letter: None,
    value: None,
    help: "",
    kind: Kind::Flag,
    conflict: None,
    needs: None,
};

const DER: Argument = Argument {
    name: "der",
    help: "Read as DER (default: BER)",
    ..FLAG
};

const BER: Argument = Argument {
    name: "ber",
    help: "Read as BER (default: DER)",
    ..FLAG
};

const AS: Argument = Argument {
    name: "as",
    value: Some("TYPE"),
    help: "Type that names the fields, or none (default: auto)",
    kind: Kind::Word,
    ..FLAG
};

const AS_TYPE: Argument = Argument {
    help: "Also check the type, such as Certificate",
    ..AS
};

const AS_SHOWN: Argument = Argument {
    help: "Type, such as AS-REQ (default: detected)",
    ..AS
};

const ASN1: Argument = Argument {
    name: "asn1",
    value: Some("FILE"),
    help: "Modules of ASN.1 that define TYPE; may be given again",
    kind: Kind::Words,
    needs: Some("as"),
    ..FLAG
};

const NAMES: Argument = Argument {
    name: "names",
    value: Some("FILE"),
    help: "Names of object identifiers, in lines such as 1.2.3 ours",
    kind: Kind::Word,
    ..FLAG
};

const QUIET: Argument = Argument {
    name: "quiet",
    letter: Some('q'),
    help: "Print nothing; the status is 0 if all are valid, else 1",
    ..FLAG
};

const STRICT: Argument = Argument {
    name: "strict",
    help: "Exit with 1 if a rule of RFC 5280 is broken",
    ..FLAG
};

const JSON: Argument = Argument {
    name: "json",
    help: "Print a line of JSON for each file or block",
    ..FLAG
};

const OCTETS: Argument = Argument {
    name: "octets",
    help: "Print the octets of each element too",
    ..FLAG
};

const CONTENT: Argument = Argument {
    name: "content",
    help: "Write the content only, without the header",
    ..FLAG
};

const FULL: Argument = Argument {
    name: "full",
    help: "Print long values in full",
    conflict: Some("width"),
    ..FLAG
};

const NO_INSIDE: Argument = Argument {
    name: "no-inside",
    help: "Don't look for elements inside strings",
    ..FLAG
};

/// The help of `--recursive`. Completions show its first line.
const RECURSIVE_HELP: &str = "\
Read all files in folders, also through links.
A file with several names is read once. Links to folders,
broken links, pipes, sockets and devices are skipped with
a note on standard error. The status is 1 if a folder
can't be read or has no file.";

const RECURSIVE: Argument = Argument {
    name: "recursive",
    letter: Some('r'),
    help: RECURSIVE_HELP,
    ..FLAG
};

const WIDTH: Argument = Argument {
    name: "width",
    value: Some("N"),
    help: "Cut lines to N columns (0: don't cut)",
    kind: Kind::Number,
    ..FLAG
};

const DEPTH: Argument = Argument {
    name: "depth",
    value: Some("N"),
    help: "Print elements at most N levels deep",
    kind: Kind::Number,
    ..FLAG
};

const OFFSET: Argument = Argument {
    name: "offset",
    value: Some("N"),
    help: "Print the element at offset N and those inside it",
    kind: Kind::Number,
    conflict: Some("path"),
    ..FLAG
};

const NOW: Argument = Argument {
    name: "now",
    value: Some("N"),
    help: "Current time as Unix seconds (default: the clock)",
    kind: Kind::Number,
    ..FLAG
};

const PATH: Argument = Argument {
    name: "path",
    value: Some("PATH"),
    help: "Print the elements at this path and those inside them",
    kind: Kind::Word,
    ..FLAG
};

const FROM: Argument = Argument {
    name: "from",
    value: Some("FORM"),
    help: "Form: der, pem, hex or base64 (default: detected)",
    kind: Kind::Form,
    ..FLAG
};

const FILE: Argument = Argument {
    name: "file",
    value: Some("FILE"),
    help: "File, or - for standard input",
    kind: Kind::File,
    ..FLAG
};

const GIVEN_FILE: Argument = Argument {
    kind: Kind::Required,
    ..FILE
};

const FILES: Argument = Argument {
    help: "Files (default: -, standard input)",
    kind: Kind::Files,
    ..FILE
};

const FIRST: Argument = Argument {
    name: "first",
    ..GIVEN_FILE
};

const SECOND: Argument = Argument {
    name: "second",
    help: "File to compare with",
    ..GIVEN_FILE
};

const PLACE: Argument = Argument {
    name: "place",
    value: Some("PATH|@OFFSET"),
    help: "Path or offset of the element",
    ..GIVEN_FILE
};
