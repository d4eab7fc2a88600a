//! The forms of commands: a row for each, with its word and the parts behind it.

ghost use Rattle.std.specs.Prelude.{◌≡◌};
ghost use Rattle.ua_text.specs.Grammars.{row_of, forms_of};
ghost use Rattle.ua_operands.specs.declared.written.Mode.{Mode};
ghost use Rattle.ua_script.specs.Forms.{form_row, all_forms, question, asked};
ghost use Rattle.ua_script.specs.inner.Forms.{found_form};
ghost use Rattle.ua_script.specs.Tables.{script_forms};

use crate::script::{Command, Provable};
use ua_text::{Form, Grammar, Part, Table};

/// The forms of commands.
#[derive(Clone, Copy, Debug, PartialEq, Eq)]
pub enum CommandForm {
    Close,
    Member,
    Cond,
    Nu,
    Jonsson,
    Hm,
    Free,
    Sub,
    Ones,
    Eval,
    Cg,
    Con,
    Types,
    Day,
    Condition,
    Clone,
    Central,
    Comm,
    Series,
    Holds,
    Hom,
    Make,
    Check,
}

// The table. Blocks and `cert` stand beside the commands.

const ALGEBRA: Form = Form {
    word: b"algebra",
    parts: &[Part::Body],
};

const CERT: Form = Form {
    word: b"cert",
    parts: &[Part::Pick(Table::Provables)],
};

const CLOSE: Form = Form {
    word: b"close",
    parts: &[Part::Name, Part::Count, Part::Vectors, Part::Modes],
};

const MEMBER: Form = Form {
    word: b"member",
    parts: &[
        Part::Name,
        Part::Count,
        Part::Vectors,
        Part::Mark(b'='),
        Part::Vector,
    ],
};

const COND: Form = Form {
    word: b"cond",
    parts: &[Part::Name, Part::OneOf(0)],
};

const NU: Form = Form {
    word: b"nu",
    parts: &[Part::Name, Part::Count],
};

const JONSSON: Form = Form {
    word: b"jonsson",
    parts: &[Part::Name],
};

const HM: Form = Form {
    word: b"hm",
    parts: &[Part::Name],
};

const FREE: Form = Form {
    word: b"free",
    parts: &[Part::Name, Part::Count, Part::Modes],
};

const SUB: Form = Form {
    word: b"sub",
    parts: &[Part::Name, Part::Vector],
};

const ONES: Form = Form {
    word: b"ones",
    parts: &[Part::Name],
};

const EVAL: Form = Form {
    word: b"eval",
    parts: &[Part::Name, Part::Term, Part::Vector],
};

const CG: Form = Form {
    word: b"cg",
    parts: &[Part::Name, Part::Vectors],
};

const CON: Form = Form {
    word: b"con",
    parts: &[Part::Name],
};

const TYPES: Form = Form {
    word: b"types",
    parts: &[Part::Name],
};

const DAY: Form = Form {
    word: b"day",
    parts: &[Part::Name],
};

const CONDITION: Form = Form {
    word: b"condition",
    parts: &[Part::Name, Part::Count, Part::Identities(2)],
};

const CLONE: Form = Form {
    word: b"clone",
    parts: &[
        Part::Name,
        Part::Count,
        Part::OneOf(3),
        Part::Pick(Table::Points),
    ],
};

const CENTRAL: Form = Form {
    word: b"central",
    parts: &[
        Part::Name,
        Part::Partition,
        Part::Partition,
        Part::Partition,
    ],
};

const COMM: Form = Form {
    word: b"comm",
    parts: &[Part::Name, Part::Partition, Part::Partition],
};

const SERIES: Form = Form {
    word: b"series",
    parts: &[Part::Name, Part::OneOf(1)],
};

const HOLDS: Form = Form {
    word: b"holds",
    parts: &[Part::Name, Part::Term, Part::Mark(b'='), Part::Term],
};

const HOM: Form = Form {
    word: b"hom",
    parts: &[Part::Name, Part::Name, Part::Vector, Part::Vector],
};

const MAKE: Form = Form {
    word: b"make",
    parts: &[Part::Fresh, Part::Pick(Table::Constructions)],
};

const CHECK: Form = Form {
    word: b"check",
    parts: &[Part::Name, Part::Json],
};

/// Blocks, questions behind `cert`, and commands.
const COMMANDS: &[Form] = &[
    ALGEBRA, CERT, CLOSE, MEMBER, COND, NU, JONSSON, HM, FREE, SUB, ONES, EVAL, CG, CON, TYPES,
    DAY, CONDITION, CLONE, CENTRAL, COMM, SERIES, HOLDS, HOM, MAKE, CHECK,
];

/// The questions behind `cert`, which asks for no other answer.
const QUESTIONS: &[Form] = &[
    Form {
        word: b"close",
        parts: &[Part::Name, Part::Count, Part::Vectors],
    },
    MEMBER,
    COND,
    NU,
    JONSSON,
    HM,
];

/// The constructions behind the name of a `make`.
const CONSTRUCTIONS: &[Form] = &[
    Form {
        word: b"product",
        parts: &[Part::Name, Part::Name],
    },
    Form {
        word: b"quotient",
        parts: &[Part::Name, Part::Partition],
    },
    Form {
        word: b"sub",
        parts: &[Part::Name, Part::Vector],
    },
    Form {
        word: b"reduct",
        parts: &[Part::Name, Part::Names],
    },
];

/// The values of an operation: all of them, or some with their arguments.
const POINTS: &[Form] = &[
    Form {
        word: b"total",
        parts: &[Part::Vector],
    },
    Form {
        word: b"partial",
        parts: &[Part::Vector, Part::Vectors],
    },
];

/// The conditions, the series, the variables of identities, and the kinds of clones.
const CHOICES: &[&[&[u8]]] = &[
    &[b"maltsev", b"majority", b"minority", b"pixley"],
    &[b"derived", b"lower"],
    &[b"x", b"y", b"z", b"w"],
    &[b"term", b"polynomial"],
];

/// The grammar of scripts.
pub fn script_grammar() -> Grammar
    ensures { forms_of result ≡ script_forms }
{
    Grammar {
        version: 1,
        unbuilt: &[],
        commands: COMMANDS,
        provables: QUESTIONS,
        constructions: CONSTRUCTIONS,
        points: POINTS,
        choices: CHOICES,
    }
}

const FORMS: &[CommandForm] = &[
    CommandForm::Close,
    CommandForm::Member,
    CommandForm::Cond,
    CommandForm::Nu,
    CommandForm::Jonsson,
    CommandForm::Hm,
    CommandForm::Free,
    CommandForm::Sub,
    CommandForm::Ones,
    CommandForm::Eval,
    CommandForm::Cg,
    CommandForm::Con,
    CommandForm::Types,
    CommandForm::Day,
    CommandForm::Condition,
    CommandForm::Clone,
    CommandForm::Central,
    CommandForm::Comm,
    CommandForm::Series,
    CommandForm::Holds,
    CommandForm::Hom,
    CommandForm::Make,
    CommandForm::Check,
];

impl CommandForm {
    /// The row of the table.
    pub fn row(self) -> Form
        ensures { row_of result ≡ form_row self }
    {
        match self {
            CommandForm::Close => CLOSE,
            CommandForm::Member => MEMBER,
            CommandForm::Cond => COND,
            CommandForm::Nu => NU,
            CommandForm::Jonsson => JONSSON,
            CommandForm::Hm => HM,
            CommandForm::Free => FREE,
            CommandForm::Sub => SUB,
            CommandForm::Ones => ONES,
            CommandForm::Eval => EVAL,
            CommandForm::Cg => CG,
            CommandForm::Con => CON,
            CommandForm::Types => TYPES,
            CommandForm::Day => DAY,
            CommandForm::Condition => CONDITION,
            CommandForm::Clone => CLONE,
            CommandForm::Central => CENTRAL,
            CommandForm::Comm => COMM,
            CommandForm::Series => SERIES,
            CommandForm::Holds => HOLDS,
            CommandForm::Hom => HOM,
            CommandForm::Make => MAKE,
            CommandForm::Check => CHECK,
        }
    }
}

/// The form of a command.
pub fn form(command: &Command) -> CommandForm
    ensures { result ≡ (asked command.now).form }
{
    match command {
        Command::Ask { what, .. } => question_form(what),
        Command::Free { .. } => CommandForm::Free,
        Command::Sub { .. } => CommandForm::Sub,
        Command::Ones { .. } => CommandForm::Ones,
        Command::Eval { .. } => CommandForm::Eval,
        Command::Cg { .. } => CommandForm::Cg,
        Command::Con { .. } => CommandForm::Con,
        Command::Types { .. } => CommandForm::Types,
        Command::Day { .. } => CommandForm::Day,
        Command::Condition { .. } => CommandForm::Condition,
        Command::Clone { .. } => CommandForm::Clone,
        Command::Central { .. } => CommandForm::Central,
        Command::Comm { .. } => CommandForm::Comm,
        Command::Series { .. } => CommandForm::Series,
        Command::Holds { .. } => CommandForm::Holds,
        Command::Hom { .. } => CommandForm::Hom,
        Command::Make { .. } => CommandForm::Make,
        Command::Check { .. } => CommandForm::Check,
    }
}

/// The form of a question.
fn question_form(what: &Provable) -> CommandForm
    ensures { (mode : Mode) → result ≡ (question what.now mode).0 }
{
    match what {
        Provable::Close { .. } => CommandForm::Close,
        Provable::Member { .. } => CommandForm::Member,
        Provable::Cond { .. } => CommandForm::Cond,
        Provable::Nu { .. } => CommandForm::Nu,
        Provable::Jonsson { .. } => CommandForm::Jonsson,
        Provable::Hm { .. } => CommandForm::Hm,
    }
}

/// The form of the command that begins with this word.
pub fn found_form(text: &[u8]) -> Option<CommandForm>
    ensures { result ≡ found_form text.now all_forms }
{
    for form in FORMS {
        if text == form.row().word {
            return Some(*form);
        }
    }
    None
}
