//! Commands as they are written.
ghost use Rattle.std.specs.Prelude.{◌≡◌, ◌↔◌, IsTrue};
ghost use Rattle.hol_notation_commands.specs.CommandView.{command_of_node, local_text, making_text};
ghost use Rattle.hol_notation_commands.specs.Equal.{leading_name, making_name};

use crate::type_definition::TypeDefinition;
use hol_notation_tactics::TacExpr;
use hol_notation_terms::{Definition, Quotation, TypeQuotation};
use std::hash::{Hash, Hasher};
use std::marker::Model;

/// A command.
#[derive(Drop)]
pub struct Command {
    node: CommandNode,
}

/// What a command is.
#[derive(Drop)]
pub enum CommandNode {
    /// A command whose outcome is a function of what it reads.
    Local(LocalCommand),
    /// What is answered from the state.
    Direct(DirectCommand),
}

/// What is answered from the state.
#[derive(Drop)]
pub enum DirectCommand {
    /// `b`
    Back,
    /// `r` with a number.
    Rotate(usize),
    /// `oops`
    Oops,
    /// `import NAME`
    Import(String),
}

/// A command whose outcome is a function of what it reads.
#[derive(Drop)]
pub enum LocalCommand {
    /// `g NAME` and a quotation: opens a proof of a goal.
    Goal {
        /// The theorem's name.
        name: String,
        /// What it is to say.
        quotation: Quotation,
    },
    /// `e` with an expression of TACs: runs it on the first goal.
    Apply(TacExpr),
    /// `qed`: ends the proof.
    Qed,
    /// `deftac NAME` with an expression of TACs: names it.
    DefineTac {
        /// The name that it gets.
        name: String,
        /// The expression.
        tactic: TacExpr,
    },
    /// A command that makes a type, a constant, an axiom or a definition.
    Make(Making),
}

/// A command that makes a type, a constant, an axiom or a definition.
#[derive(Drop)]
pub enum Making {
    /// `new_type NAME NUM`
    Type {
        /// The type constructor's name.
        name: String,
        /// The number of its arguments, at most 16.
        arity: u32,
    },
    /// `new_constant NAME` and a type between backquotes.
    Constant {
        /// The constant's name.
        name: String,
        /// Its generic type.
        quotation: TypeQuotation,
    },
    /// `new_axiom NAME` and a quotation.
    Axiom {
        /// The axiom's name.
        name: String,
        /// What it says.
        quotation: Quotation,
    },
    /// `new_definition NAME` and a definition between backquotes.
    Definition {
        /// The name of the theorem to make.
        name: String,
        /// The constant, and what it is to be equal to.
        definition: Definition,
    },
    /// `new_basic_type_definition` and six names.
    BasicTypeDefinition(TypeDefinition),
}

impl Model for Command {
    ghost use Rattle.hol_notation_commands.specs.Text.{CommandText};
    ghost use Rattle.hol_notation_commands.specs.Code.{coded_command};

    ghost Value = { CommandText };

    ghost coded = { coded_command };

    ghost use Rattle.hol_notation_commands.specs.CommandView.{command_of_node};

    ghost view = { λ a. command_of_node a.node };
}

impl Command {
    /// The command that is this.
    pub fn new(node: CommandNode) -> Command
        ensures { result ≡ command_of_node node }
    {
        Command { node }
    }

    /// What it is.
    pub fn node(&self) -> &CommandNode
        ensures { command_of_node result.now ≡ self.now }
    {
        &self.node
    }
}

impl LocalCommand {
    /// Whether both are the same, the places of their quotations included.
    pub fn same(&self, other: &LocalCommand) -> bool
        ensures { IsTrue result ↔ (local_text self.now ≡ local_text other.now) }
    {
        match self {
            LocalCommand::Goal { name, quotation } => {
                let LocalCommand::Goal {
                    name: other_name,
                    quotation: other_quotation,
                } = other
                else {
                    return false;
                };
                name.as_str() == other_name.as_str() && quotation.same(other_quotation)
            }
            LocalCommand::Apply(tactic) => {
                let LocalCommand::Apply(other_tactic) = other else {
                    return false;
                };
                tactic.same(other_tactic)
            }
            LocalCommand::Qed => matches!(other, LocalCommand::Qed),
            LocalCommand::DefineTac { name, tactic } => {
                let LocalCommand::DefineTac {
                    name: other_name,
                    tactic: other_tactic,
                } = other
                else {
                    return false;
                };
                name.as_str() == other_name.as_str() && tactic.same(other_tactic)
            }
            LocalCommand::Make(making) => {
                let LocalCommand::Make(other_making) = other else {
                    return false;
                };
                making.same(other_making)
            }
        }
    }

    /// A name in the command: what it makes, or the TAC that is written first.
    pub fn leading_name(&self) -> &str
        ensures { result.now ≡ leading_name (local_text self.now) }
    {
        match self {
            LocalCommand::Goal { name, quotation: _ } => name.as_str(),
            LocalCommand::Apply(tactic) => tactic.leading_name(),
            LocalCommand::Qed => "",
            LocalCommand::DefineTac { name, tactic: _ } => name.as_str(),
            LocalCommand::Make(making) => making.name(),
        }
    }
}

impl PartialEq for LocalCommand {
    ghost use Rattle.hol_notation_commands.specs.Equal.{same_command, same_command_partial_laws};

    ghost eq = { same_command };

    ghost laws = { same_command_partial_laws };

    #[tactic(auto, using(crate::specs::Equal::same_text_decides))]
    fn eq(&self, other: &LocalCommand) -> bool {
        self.same(other)
    }
}

impl Eq for LocalCommand {
    ghost use Rattle.hol_notation_commands.specs.Equal.{same_command_laws};

    ghost laws = { same_command_laws };
}

impl Hash for LocalCommand {
    ghost use Rattle.std.specs.Hash as fed;
    ghost use Rattle.hol_notation_commands.specs.Equal.{leading_name};
    ghost use Rattle.hol_notation_commands.specs.CommandView.{local_text};
    ghost use Rattle.hol_notation_commands.specs.Equal.{command_fed};

    ghost hash_input = { λ c. fed.str (leading_name (local_text c)) };

    ghost respects_eq = { command_fed };

    fn hash<H: Hasher>(&self, state: &mut H) {
        self.leading_name().hash(state);
    }
}

impl Making {
    /// Whether both are the same, the places of their quotations included.
    pub fn same(&self, other: &Making) -> bool
        ensures { IsTrue result ↔ (making_text self.now ≡ making_text other.now) }
    {
        match self {
            Making::Type { name, arity } => {
                let Making::Type {
                    name: other_name,
                    arity: other_arity,
                } = other
                else {
                    return false;
                };
                name.as_str() == other_name.as_str() && *arity == *other_arity
            }
            Making::Constant { name, quotation } => {
                let Making::Constant {
                    name: other_name,
                    quotation: other_quotation,
                } = other
                else {
                    return false;
                };
                name.as_str() == other_name.as_str() && quotation.same(other_quotation)
            }
            Making::Axiom { name, quotation } => {
                let Making::Axiom {
                    name: other_name,
                    quotation: other_quotation,
                } = other
                else {
                    return false;
                };
                name.as_str() == other_name.as_str() && quotation.same(other_quotation)
            }
            Making::Definition { name, definition } => {
                let Making::Definition {
                    name: other_name,
                    definition: other_definition,
                } = other
                else {
                    return false;
                };
                name.as_str() == other_name.as_str() && definition.same(other_definition)
            }
            Making::BasicTypeDefinition(definition) => {
                let Making::BasicTypeDefinition(other_definition) = other else {
                    return false;
                };
                definition.same(other_definition)
            }
        }
    }

    /// A name in the command.
    pub fn name(&self) -> &str
        ensures { result.now ≡ making_name (making_text self.now) }
    {
        match self {
            Making::Type { name, arity: _ }
            | Making::Constant { name, quotation: _ }
            | Making::Axiom { name, quotation: _ }
            | Making::Definition {
                name,
                definition: _,
            } => name.as_str(),
            Making::BasicTypeDefinition(definition) => definition.ty.as_str(),
        }
    }
}
