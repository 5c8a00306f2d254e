//! What words ask for, and what each command reads.
ghost use Rattle.std.specs.Prelude.{◌≡◌, ◌≤◌};
ghost use Rattle.jwt_words.specs.Reading.{files_alone, files_and_input, reads};
ghost use Rattle.jwt_words.specs.Seen.{command_view, files_view, reads_view};
ghost use Rattle.jwt_words.specs.Words.{no_files};
ghost use Rattle.jwt_settings.specs.declared.printing.Printing.TheVariants.{Lines};

use crate::jwk::{JwkOrder, SecretOrder};
use crate::policy::PolicyOrder;
use crate::pretty::PrettyOrder;
use jwt_jws::Form;
use jwt_mac::Alg;
use jwt_settings::{Expectation, Moment, Printing};
use jwt_text::LONGEST_KEY_SET;

/// The files that are named, in the place of standard input.
#[derive(Clone, Copy)]
pub struct Files<'a> {
    /// The file of the policy.
    pub policy: Option<&'a str>,

    /// The file of the key set.
    pub keys: Option<&'a str>,

    /// The file of the access rule.
    pub access: Option<&'a str>,

    /// The file of the token.
    pub token: Option<&'a str>,

    /// The file of the key of `mac`, of the public keys or the secret of `jwk`, or of the service document of `policy`.
    pub key: Option<&'a str>,
}

impl<'a> Files<'a> {
    /// None is named.
    pub fn none() -> Files<'a>
        ensures { files_view result ≡ no_files }
    {
        Files {
            policy: None,
            keys: None,
            access: None,
            token: None,
            key: None,
        }
    }
}

/// What `verify --lines` asks for. With no moment, it is the clock's at each line.
#[derive(Clone, Copy)]
pub struct LinesOrder<'a> {
    pub now: Option<Moment>,
    pub public_keys: bool,
    pub printing: Printing,
    pub expected: Option<Expectation<'a>>,
    pub files: Files<'a>,
}

/// What the words ask for: a command, with how its answer is printed, where JSON can be asked for, and its options.
#[derive(Clone, Copy)]
pub enum Command<'a> {
    /// `mac`, with the text of its key.
    Mac {
        key: &'a str,
        limit: u64,
    },
    /// `mac`, with the file of its key.
    MacFile {
        name: &'a str,
        limit: u64,
    },
    /// `keys`.
    Keys {
        printing: Printing,
    },
    /// `show`, in lines or in JSON.
    Show {
        printing: Printing,
        limit: u64,
    },
    /// `verify`, of one token.
    Verify {
        printing: Printing,
        now: Moment,
        public_keys: bool,
        expected: Option<Expectation<'a>>,
        files: Files<'a>,
    },
    /// `verify --lines`.
    VerifyLines(LinesOrder<'a>),
    /// `issue`.
    Issue {
        alg: Alg,
        typ: Option<&'a str>,
        form: Form,
        files: Files<'a>,
    },
    /// `--version`.
    Version,
    /// `jwk`, of public keys.
    Jwk(JwkOrder<'a>),
    /// `jwk --new` or `jwk --secret`.
    NewSecret(SecretOrder<'a>),
    /// `policy`.
    Policy(PolicyOrder<'a>),
    /// `show --pretty`.
    Pretty(PrettyOrder),
}

/// What a command reads, and how its answer is printed.
#[derive(Clone, Copy)]
pub struct Reads<'a> {
    /// How its answer is printed.
    pub printing: Printing,

    /// The files that it names.
    pub files: Files<'a>,

    /// The most octets of the file of a key: 5,463 of the text of that of `mac`, 4,096 of a secret, and 4,194,304 of public keys and
    /// of a service document.
    pub key_limit: u32,

    /// How many octets of the system's random source: 32, 48 or 64 for a new secret, and else none.
    pub random: u32,

    /// Whether it may read standard input.
    pub input: bool,
}

impl<'a> Reads<'a> {
    /// Files, and what of its documents no file has from standard input.
    fn files_and_input(printing: Printing, files: Files<'a>) -> Reads<'a>
        ensures { reads_view result ≡ files_and_input printing (files_view files.entry) }
    {
        Reads {
            printing,
            files,
            key_limit: 5_463,
            random: 0,
            input: true,
        }
    }

    /// Files alone.
    fn files_alone(printing: Printing, files: Files<'a>) -> Reads<'a>
        ensures { reads_view result ≡ files_alone printing (files_view files.entry) }
    {
        Reads {
            input: false,
            ..Reads::files_and_input(printing, files)
        }
    }

    /// What wrong words read.
    pub fn nothing() -> Reads<'a>
        ensures is { reads_view result ≡ files_alone Lines no_files }
        ensures least { 1 ≤ result.key_limit }
        ensures greatest { result.key_limit ≤ LONGEST_KEY_SET }
    {
        Reads::files_alone(Printing::Lines, Files::none())
    }
}

impl<'a> Command<'a> {
    /// What the command reads, and how its answer is printed.
    pub fn reads(self) -> Reads<'a>
        ensures is { reads_view result ≡ reads (command_view self.entry) }
        ensures least { 1 ≤ result.key_limit }
        ensures greatest { result.key_limit ≤ LONGEST_KEY_SET }
    {
        match self {
            Command::Mac { .. } | Command::Pretty(_) => {
                Reads::files_and_input(Printing::Lines, Files::none())
            }
            Command::MacFile { name, .. } => Reads::files_and_input(
                Printing::Lines,
                Files {
                    key: Some(name),
                    ..Files::none()
                },
            ),
            Command::Keys { printing } | Command::Show { printing, .. } => {
                Reads::files_and_input(printing, Files::none())
            }
            Command::Verify {
                printing,
                files,
                ..
            } => Reads::files_and_input(printing, files),
            Command::VerifyLines(order) => Reads::files_and_input(order.printing, order.files),
            Command::Issue { files, .. } => Reads::files_and_input(Printing::Lines, files),
            Command::Version => Reads::files_alone(Printing::Lines, Files::none()),
            Command::Jwk(order) => Reads {
                key_limit: LONGEST_KEY_SET,
                ..Reads::files_and_input(order.printing, order.files)
            },
            Command::NewSecret(order) => Reads {
                key_limit: 4_096,
                random: if order.files.key.is_some() {
                    0
                } else {
                    order.alg.digest()
                },
                ..Reads::files_alone(order.printing, order.files)
            },
            Command::Policy(order) => Reads {
                key_limit: LONGEST_KEY_SET,
                ..Reads::files_alone(order.printing, order.files)
            },
        }
    }
}
