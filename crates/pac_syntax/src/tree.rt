// The tree of a catalogue: tables, procedures, statements and expressions, with the offset of each name, literal and expression.
use pac_base::{Boxed, Listed};
use pac_value::{BinOp, Name, Ty, Value};

/// A name and where it stands.
#[derive(Clone, Copy, Debug)]
pub struct NameNode {
    pub at: usize,
    pub name: Name,
}

/// A literal and the offset of its first token.
#[derive(Clone, Copy, Debug)]
pub struct LiteralNode {
    pub at: usize,
    pub value: Value,
}

/// A column or a parameter.
#[derive(Clone, Copy, Debug)]
pub struct ColumnNode {
    pub name: NameNode,
    pub ty: Ty,
}

/// An expression. `at` is the offset of its first token.
#[derive(Debug, Drop)]
pub enum ExprNode {
    Literal(LiteralNode),
    Name(NameNode),
    Binary {
        at: usize,
        op: BinOp,
        left: Boxed<ExprNode>,
        right: Boxed<ExprNode>,
    },
    /// `!OPERAND`
    Not {
        at: usize,
        operand: Boxed<ExprNode>,
    },
}

/// A statement.
#[derive(Debug, Drop)]
pub enum StmtNode {
    /// `let NAME = VALUE;`
    Let {
        name: NameNode,
        value: ExprNode,
    },
    /// `read NAME = TABLE[KEY].COLUMN default DEFAULT;`
    Read {
        name: NameNode,
        table: NameNode,
        key: ExprNode,
        column: NameNode,
        default: LiteralNode,
    },
    /// `has NAME = TABLE[KEY];`
    Has {
        name: NameNode,
        table: NameNode,
        key: ExprNode,
    },
    /// `put TABLE[KEY] = (VALUES);`
    Put {
        table: NameNode,
        key: ExprNode,
        values: Listed<ExprNode>,
    },
    /// `set TABLE[KEY].COLUMN = VALUE;`
    Set {
        table: NameNode,
        key: ExprNode,
        column: NameNode,
        value: ExprNode,
    },
    /// `delete TABLE[KEY];`
    Delete {
        table: NameNode,
        key: ExprNode,
    },
    /// `abort if TEST;`
    AbortIf {
        test: ExprNode,
    },
    /// `if TEST { FIRST } else { SECOND }`; without an `else`, SECOND is empty.
    If {
        test: ExprNode,
        first: Listed<StmtNode>,
        second: Listed<StmtNode>,
    },
    /// `for NAME in FROM..TO { BODY }`
    For {
        name: NameNode,
        from: i64,
        to: i64,
        body: Listed<StmtNode>,
    },
}

/// A table with its columns, the key apart.
#[derive(Debug, Drop)]
pub struct TableNode {
    pub name: NameNode,
    pub key: Ty,
    pub columns: Listed<ColumnNode>,
}

/// A procedure.
#[derive(Debug, Drop)]
pub struct ProcNode {
    pub name: NameNode,
    pub params: Listed<ColumnNode>,
    pub body: Listed<StmtNode>,
}

/// A catalogue as it is written.
#[derive(Debug, Drop)]
pub struct Tree {
    pub tables: Listed<TableNode>,
    pub procs: Listed<ProcNode>,
}
