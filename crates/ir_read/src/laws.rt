//! Laws of the definitions by which modules are read. The functions here do nothing; their contracts are theorems.

ghost use Rattle.std.specs.Prelude.{◌≡◌, ℕ, Bool, true, false, List, ◌++◌, ◌⊎◌, Ok, Err};
ghost use Rattle.ir_read.specs.Laws.{Begins, IsErrorAt, IsErrorOf, IsFirstFault, IsText, Reads, is_final, token_at};
ghost use Rattle.ir_lex.specs.Token.{Lexeme as Token};
ghost use Rattle.ir_read.specs.declared.read.Ending.{Ending};
ghost use Rattle.ir_read.specs.declared.error.ModuleError.{ModuleError};
ghost use Rattle.ir_read.specs.declared.error.ModuleError.TheVariants as errors;
ghost use Rattle.ir_read.specs.declared.machine.Refusal.{Refusal};
ghost use Rattle.ir_read.specs.declared.terminal.Terminal.{Terminal};
ghost use Rattle.ir_read.specs.declared.terminal.Terminal.TheVariants as classes;
ghost use Rattle.ir_lex.specs.Token.{is_token};
ghost use Rattle.ir_lex.specs.declared.token.TokenKind.{TokenKind};
ghost use Rattle.ir_read.specs.Cause.{error_of, is_word};
ghost use Rattle.ir_read.specs.Terminal.{terminal_of};
ghost use Rattle.ir_read.specs.Node.{Lexeme, Told};
ghost use Rattle.ir_read.specs.Read.{lexemes_of, raw_module_of};

/// Tokens are read exactly where they are the items of a module, and what is kept of them is theirs.
pub fn read_is_spelled()
    ensures read { (tokens : List Lexeme) (nodes : List Told) → raw_module_of tokens ≡ Ok nodes → Reads tokens nodes }
    ensures spelled { (tokens : List Lexeme) (nodes : List Told) → Reads tokens nodes → raw_module_of tokens ≡ Ok nodes }
{}

/// A text is refused exactly where it has a first fault: the tokens before it begin a module, and with it they don't.
/// There is at most one, and the error goes by its class and is in its line. The tokens of a text with what ends it are
/// such a text.
pub fn error_is_of_first_fault()
    ensures first { (tokens : List Lexeme) (error : ModuleError) → IsText tokens → raw_module_of tokens ≡ Err error → IsErrorOf error tokens }
    ensures refused { (tokens : List Lexeme) (place : ℕ) → IsText tokens → IsFirstFault tokens place →
        (error : ModuleError) × (raw_module_of tokens ≡ Err error) × IsErrorAt error (token_at tokens place) }
    ensures text { (tokens : List Token) (ending : Ending) → IsText (lexemes_of tokens ending) }
    ensures one { (tokens : List Lexeme) (one other : ℕ) → IsFirstFault tokens one → IsFirstFault tokens other → one ≡ other }
{}

/// What is answered to a text whose front begins no module rests on that front alone.
pub fn front_decides()
    ensures { (front rest other : List Lexeme) → ¬ Begins front → raw_module_of (front ++ rest) ≡ raw_module_of (front ++ other) }
{}

/// The error of a refused token goes by its class first: where no token begins, at the end of the text, and at words
/// it is the same for each rule. At other tokens it is one of two.
pub fn errors_go_by_classes()
    ensures bad { (behind_type : Bool) (refusal : Refusal) (line : ℕ) → error_of behind_type refusal classes.Bad line ≡ errors.Lexical line }
    ensures end { (behind_type : Bool) (refusal : Refusal) (line : ℕ) → error_of behind_type refusal classes.End line ≡ errors.Syntax line }
    ensures word { (behind_type : Bool) (refusal : Refusal) (terminal : Terminal) (line : ℕ) → is_word terminal ≡ true →
        error_of behind_type refusal terminal line ≡ errors.Unsupported line }
    ensures other { (behind_type : Bool) (refusal : Refusal) (terminal : Terminal) (line : ℕ) → is_final terminal ≡ false →
        (error_of behind_type refusal terminal line ≡ errors.Syntax line)
        ⊎ (error_of behind_type refusal terminal line ≡ errors.Unsupported line) }
{}

/// Each class but those that end a text is the class of some token.
pub fn classes_have_tokens()
    ensures { (terminal : Terminal) → is_final terminal ≡ false →
        (kind : TokenKind) × (text : List ℕ) × (is_token kind text ≡ true) × (terminal_of kind text ≡ terminal) }
{}
