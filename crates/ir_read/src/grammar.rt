//! The grammar of modules as a table: the rules, with which tokens each begins, and what it stands for at others.

ghost use Rattle.std.specs.Prelude.{◌≡◌, option_map};
ghost use Rattle.ir_read.specs.Grammar as table;

use crate::body_rows::{
    body_row, branch_row, cases_row, comma_block_row, comma_label_row, comma_operand_row,
    comma_typed_row, count_row, edge_row, more_edges_row, open_cases_row, operation_row,
    returned_row, steps_row,
};
use crate::call_rows::{
    arguments_row, callee_row, more_arguments_row, more_written_row, next_written_row,
    open_arguments_row, written_row,
};
use crate::constant_rows::{
    comma_ptr_row, elements_row, indices_row, initializer_row, members_row, more_elements_row,
    more_members_row, operand_row,
};
use crate::item_rows::{
    declared_name_row, declared_row, items_row, more_declared_row, more_parameters_row,
    next_declared_row, open_declared_row, open_parameters_row, parameter_name_row, parameters_row,
};
use crate::terminal::Terminal;
use crate::token_rows::{
    array_size_row, callee_name_row, close_array_row, close_edge_row, close_members_row,
    close_paren_row, close_type_row, close_written_row, defined_name_row, equals_row,
    global_kind_row, global_name_row, key_label_row, key_ptr_row, key_to_row, key_type_row,
    key_x_row, literal_row, local_name_row, open_body_row, open_constant_row, packed_brace_row,
    parameter_type_row, predicate_row, result_type_row, value_type_row,
};
use crate::type_rows::{aggregate_row, fields_row, more_fields_row, type_row};

/// A rule of the grammar. Each begins with a token.
#[derive(Clone, Copy)]
pub enum Rule {
    /// The items of a module, and the end of its text.
    Items,
    Equals,
    KeyType,
    GlobalKind,
    GlobalName,
    /// The name of a defined function.
    DefinedName,
    /// The parameters of a declared function.
    OpenDeclared,
    Declared,
    /// A declared function's parameter may have a name.
    DeclaredName,
    MoreDeclared,
    NextDeclared,
    /// The parameters of a defined function.
    OpenParameters,
    Parameters,
    ParameterType,
    ParameterName,
    MoreParameters,
    OpenBody,
    CloseParen,
    /// A type of a value in memory.
    Type,
    /// A struct type.
    Aggregate,
    ArraySize,
    KeyX,
    CloseArray,
    Fields,
    MoreFields,
    /// The `{` behind the `<` of a packed struct.
    PackedBrace,
    CloseType,
    /// A type of a value in a register.
    ValueType,
    ResultType,
    Literal,
    /// What a global or a part of it holds.
    Initializer,
    Elements,
    MoreElements,
    Members,
    MoreMembers,
    CloseMembers,
    Operand,
    OpenConstant,
    CommaPtr,
    KeyPtr,
    /// The indices of a constant `getelementptr`.
    Indices,
    KeyTo,
    /// Labels and instructions, up to the end of a function's body.
    Body,
    /// An instruction that may have a result.
    Operation,
    Predicate,
    CommaTyped,
    CommaOperand,
    CommaLabel,
    KeyLabel,
    LocalName,
    /// A value of a `phi` and the block that it comes from.
    Edge,
    CommaBlock,
    CloseEdge,
    MoreEdges,
    /// How many objects an `alloca` makes.
    Count,
    /// The indices of a `getelementptr`.
    Steps,
    Branch,
    OpenCases,
    Cases,
    Returned,
    /// The callee of a `call`, maybe behind the types of its parameters.
    Callee,
    Written,
    MoreWritten,
    NextWritten,
    CloseWritten,
    CalleeName,
    OpenArguments,
    Arguments,
    MoreArguments,
}

/// What follows the token with which a rule begins, where it is one of the class.
#[tactic(auto, unfolding(crate::specs::Grammar::row))]
#[inline(always)]
pub fn row(rule: Rule, terminal: Terminal) -> Option<&'static [Rule]>
    ensures { option_map (λ rules. rules.now) result ≡ table.row rule terminal }
{
    match rule {
        Rule::Items => items_row(terminal),
        Rule::Equals => equals_row(terminal),
        Rule::KeyType => key_type_row(terminal),
        Rule::GlobalKind => global_kind_row(terminal),
        Rule::GlobalName => global_name_row(terminal),
        Rule::DefinedName => defined_name_row(terminal),
        Rule::OpenDeclared => open_declared_row(terminal),
        Rule::Declared => declared_row(terminal),
        Rule::DeclaredName => declared_name_row(terminal),
        Rule::MoreDeclared => more_declared_row(terminal),
        Rule::NextDeclared => next_declared_row(terminal),
        Rule::OpenParameters => open_parameters_row(terminal),
        Rule::Parameters => parameters_row(terminal),
        Rule::ParameterType => parameter_type_row(terminal),
        Rule::ParameterName => parameter_name_row(terminal),
        Rule::MoreParameters => more_parameters_row(terminal),
        Rule::OpenBody => open_body_row(terminal),
        Rule::CloseParen => close_paren_row(terminal),
        Rule::Type => type_row(terminal),
        Rule::Aggregate => aggregate_row(terminal),
        Rule::ArraySize => array_size_row(terminal),
        Rule::KeyX => key_x_row(terminal),
        Rule::CloseArray => close_array_row(terminal),
        Rule::Fields => fields_row(terminal),
        Rule::MoreFields => more_fields_row(terminal),
        Rule::PackedBrace => packed_brace_row(terminal),
        Rule::CloseType => close_type_row(terminal),
        Rule::ValueType => value_type_row(terminal),
        Rule::ResultType => result_type_row(terminal),
        Rule::Literal => literal_row(terminal),
        Rule::Initializer => initializer_row(terminal),
        Rule::Elements => elements_row(terminal),
        Rule::MoreElements => more_elements_row(terminal),
        Rule::Members => members_row(terminal),
        Rule::MoreMembers => more_members_row(terminal),
        Rule::CloseMembers => close_members_row(terminal),
        Rule::Operand => operand_row(terminal),
        Rule::OpenConstant => open_constant_row(terminal),
        Rule::CommaPtr => comma_ptr_row(terminal),
        Rule::KeyPtr => key_ptr_row(terminal),
        Rule::Indices => indices_row(terminal),
        Rule::KeyTo => key_to_row(terminal),
        Rule::Body => body_row(terminal),
        Rule::Operation => operation_row(terminal),
        Rule::Predicate => predicate_row(terminal),
        Rule::CommaTyped => comma_typed_row(terminal),
        Rule::CommaOperand => comma_operand_row(terminal),
        Rule::CommaLabel => comma_label_row(terminal),
        Rule::KeyLabel => key_label_row(terminal),
        Rule::LocalName => local_name_row(terminal),
        Rule::Edge => edge_row(terminal),
        Rule::CommaBlock => comma_block_row(terminal),
        Rule::CloseEdge => close_edge_row(terminal),
        Rule::MoreEdges => more_edges_row(terminal),
        Rule::Count => count_row(terminal),
        Rule::Steps => steps_row(terminal),
        Rule::Branch => branch_row(terminal),
        Rule::OpenCases => open_cases_row(terminal),
        Rule::Cases => cases_row(terminal),
        Rule::Returned => returned_row(terminal),
        Rule::Callee => callee_row(terminal),
        Rule::Written => written_row(terminal),
        Rule::MoreWritten => more_written_row(terminal),
        Rule::NextWritten => next_written_row(terminal),
        Rule::CloseWritten => close_written_row(terminal),
        Rule::CalleeName => callee_name_row(terminal),
        Rule::OpenArguments => open_arguments_row(terminal),
        Rule::Arguments => arguments_row(terminal),
        Rule::MoreArguments => more_arguments_row(terminal),
    }
}

/// What a rule stands for at a token with which it does not begin, where it stands for anything.
#[tactic(auto, unfolding(crate::specs::Grammar::otherwise))]
#[inline(always)]
pub fn otherwise(rule: Rule) -> Option<&'static [Rule]>
    ensures { option_map (λ rules. rules.now) result ≡ table.otherwise rule }
{
    match rule {
        Rule::Declared | Rule::NextDeclared => Some(&[Rule::ValueType, Rule::DeclaredName]),
        Rule::DeclaredName => Some(&[Rule::MoreDeclared]),
        Rule::Parameters => Some(&[Rule::ParameterType, Rule::ParameterName]),
        Rule::ParameterName => Some(&[Rule::MoreParameters]),
        Rule::Fields => Some(&[Rule::Type, Rule::MoreFields]),
        Rule::Elements => Some(&[Rule::Type, Rule::Initializer, Rule::MoreElements]),
        Rule::Members => Some(&[Rule::Type, Rule::Initializer, Rule::MoreMembers]),
        Rule::Body => Some(&[Rule::Operation]),
        Rule::MoreEdges | Rule::Count | Rule::Steps => Some(&[Rule::Body]),
        Rule::Branch => Some(&[
            Rule::ValueType,
            Rule::Operand,
            Rule::CommaLabel,
            Rule::CommaLabel,
            Rule::Body,
        ]),
        Rule::Cases => Some(&[
            Rule::ValueType,
            Rule::Literal,
            Rule::CommaLabel,
            Rule::Cases,
        ]),
        Rule::Returned => Some(&[Rule::ValueType, Rule::Operand, Rule::Body]),
        Rule::Written | Rule::NextWritten => Some(&[Rule::ValueType, Rule::MoreWritten]),
        Rule::Arguments => Some(&[Rule::ValueType, Rule::Operand, Rule::MoreArguments]),
        _ => None,
    }
}
