//! The rules of the grammar.

/// A rule of the grammar of Java 17. Each line has the rule as it stands in `docs/java-grammar.md`, which explains the
/// notation. A rule `..Turn`, and one of the five `Primary..`, is a turn of a fold. A rule's number is its place here, counted
/// from 0.
#[derive(Clone, Copy, Debug, PartialEq, Eq)]
pub enum Rule {
    /// `Unit : CompilationUnit = Package? (Import / EmptyD)* (TypeD / EmptyD)* !any`
    Unit,
    /// `Package : PackageDeclaration = AMods 'package' Name ';'`
    Package,
    /// `Name = id ('.' id)*`
    Name,
    /// `Import : ImportDeclaration = 'import' 'static'? Name ('.' '*')? ';'`
    Import,
    /// `EmptyD : EmptyDeclaration = ';'`
    EmptyD,
    /// `AMods : ModifierList = Ann*`
    AMods,
    /// `LMods : ModifierList = (Ann / 'final')*`
    LMods,
    /// `NoMods : ModifierList = (nothing)`
    NoMods,
    /// `Mods : ModifierList = (Ann / Mod)*`
    Mods,
    /// `Mod = 'public' / 'protected' / 'private' / 'static' / 'abstract' / 'final' / 'native' / 'synchronized' /
    /// 'transient' / 'volatile' / 'strictfp' / 'default' !(':' / '->') / w'non' '-' w'sealed' / w'sealed' &('@' /
    /// 'class' / 'interface' / 'public' / 'protected' / 'private' / 'abstract' / 'static' / 'strictfp')`
    Mod,
    /// `Ann : Annotation = '@' !'interface' AName AnnArgs?`
    Ann,
    /// `AName : ClassType = Name`, where the segments `ASeg` make the nodes
    AName,
    /// A segment of `AName`: `id`
    ASeg,
    /// `AnnArgs : AnnotationMemberList = '(' (list(Pair) / Short)? ')'`
    AnnArgs,
    /// `Pair : MemberValuePair = id '=' MVal`
    Pair,
    /// `Short : MemberValuePair = MVal`
    Short,
    /// `MVal = Ann / MArr / Cond`
    MVal,
    /// `MArr : MemberValueArrayInitializer = '{' list(MVal)? ','? '}'`
    MArr,
    /// `TypeD = ClassD / InterfaceD / EnumD / RecordD / AnnD`
    TypeD,
    /// `ClassD : ClassDeclaration = Mods 'class' id TParams? Ext1? Impl? Permits? ClassB`
    ClassD,
    /// `InterfaceD : ClassDeclaration = Mods 'interface' id TParams? ExtN? Permits? ClassB`
    InterfaceD,
    /// `EnumD : EnumDeclaration = Mods 'enum' id Impl? EnumB`
    EnumD,
    /// `RecordD : RecordDeclaration = Mods w'record' id TParams? Comps Impl? RecordB`
    RecordD,
    /// `AnnD : AnnotationTypeDeclaration = Mods '@' 'interface' id AnnB`
    AnnD,
    /// `Ext1 : ExtendsList = 'extends' CType`
    Ext1,
    /// `ExtN : ExtendsList = 'extends' list(CType)`
    ExtN,
    /// `Impl : ImplementsList = 'implements' list(CType)`
    Impl,
    /// `Permits : PermitsList = w'permits' list(CType)`
    Permits,
    /// `Throws : ThrowsList = 'throws' list(CType)`
    Throws,
    /// `TParams : TypeParameters = '<' list(TParam) GT`
    TParams,
    /// `TParam : TypeParameter = Ann* id ('extends' Bound)?`
    TParam,
    /// `Bound :2 IntersectionType = CType ('&' CType)*`
    Bound,
    /// `GT = '>' / '>j'`
    GT,
    /// `ClassB : ClassBody = '{' Member* '}'`
    ClassB,
    /// `AnnB : AnnotationTypeBody = '{' Member* '}'`
    AnnB,
    /// `RecordB : RecordBody = '{' (Compact / Member)* '}'`
    RecordB,
    /// `EnumB : EnumBody = '{' list(EConst)? ','? (';' Member*)? '}'`
    EnumB,
    /// `EConst : EnumConstant = AMods VarP Args? Anon?`
    EConst,
    /// `Anon : AnonymousClassDeclaration = NoMods ClassB`
    Anon,
    /// `Comps : RecordComponentList = '(' list(Comp)? ')'`
    Comps,
    /// `Comp : RecordComponent = AMods PType VarP`
    Comp,
    /// `Compact : CompactConstructorDeclaration = Mods id Block`
    Compact,
    /// `Member = Init / EmptyD / TypeD / Ctor / Method / Field`
    Member,
    /// `Init : Initializer = 'static'? Block`
    Init,
    /// `Ctor : ConstructorDeclaration = Mods TParams? id Params Throws? CBlock`
    Ctor,
    /// `CBlock : Block = '{' Explicit? BStmt* '}'`
    CBlock,
    /// `Explicit : ExplicitConstructorInvocation = (TArgs? 'this' / TArgs? 'super' / Primary '.' TArgs? 'super')
    /// Args ';'`
    Explicit,
    /// `Method : MethodDeclaration = Mods TParams? (VoidT / Type) id Params Dims? Throws? Default? (Block / ';')`
    Method,
    /// `Default : DefaultValue = 'default' MVal`
    Default,
    /// `Field : FieldDeclaration = Mods Type list(Declr) ';'`
    Field,
    /// `Declr : VariableDeclarator = VarId ('=' Init1)?`
    Declr,
    /// `Init1 = ArrInit / Expr`
    Init1,
    /// `ArrInit : ArrayInitializer = '{' list(Init1)? ','? '}'`
    ArrInit,
    /// `VarId : VariableId = id Dims?`
    VarId,
    /// `VarP : VariableId = id`
    VarP,
    /// `Dims : ArrayDimensions = Dim+`
    Dims,
    /// `Dim : ArrayTypeDim = Ann* '[' ']'`
    Dim,
    /// `Params : FormalParameters = '(' (Recv (',' Param)* / list(Param))? ')'`
    Params,
    /// `Recv : ReceiverParameter = Type (id '.')* 'this'`
    Recv,
    /// `Param : FormalParameter = LMods PType VarId`
    Param,
    /// `PType = VArr / Type`
    PType,
    /// `VArr : ArrayType = Type VDims`
    VArr,
    /// `VDims : ArrayDimensions = VDim`
    VDims,
    /// `VDim : ArrayTypeDim = Ann* '...'`
    VDim,
    /// `Type = ArrT / Base`
    Type,
    /// `ArrT : ArrayType = Base Dims`
    ArrT,
    /// `Base = PrimT / CType`
    Base,
    /// `PrimT : PrimitiveType = Ann* Prim`
    PrimT,
    /// `Prim = 'boolean' / 'byte' / 'short' / 'int' / 'long' / 'char' / 'float' / 'double'`
    Prim,
    /// `VoidT : VoidType = 'void'`
    VoidT,
    /// `CType : ClassType = Seg ('.' Seg)*`, where the segments make the nodes
    CType,
    /// A segment of `CType`: `Ann* id TArgs?`
    Seg,
    /// `TArgs : TypeArguments = '<' list(TArg)? GT`
    TArgs,
    /// `TArg = Wild / Type`
    TArg,
    /// `Wild : WildcardType = Ann* '?' (('extends' / 'super') Type)?`
    Wild,
    /// `Block : Block = '{' BStmt* '}'`
    Block,
    /// `BStmt = LClass / Yield / LVar ';' / Stmt`
    BStmt,
    /// `LClass : LocalClassStatement = ClassD / InterfaceD / EnumD / RecordD`
    LClass,
    /// `LVar : LocalVariableDeclaration = LMods VType list(Declr)`
    LVar,
    /// `VType = w'var' &id / Type`
    VType,
    /// `Stmt = Block / Label / If / While / Each / For / Do / Try / Switch / Sync / Return / Throw / Break /
    /// Continue / Assert / EmptyS / Yield / ExprS`
    Stmt,
    /// `Label : LabeledStatement = id ':' Stmt`
    Label,
    /// `If : IfStatement = 'if' '(' Expr ')' Stmt ('else' Stmt)?`
    If,
    /// `While : WhileStatement = 'while' '(' Expr ')' Stmt`
    While,
    /// `Do : DoStatement = 'do' Stmt 'while' '(' Expr ')' ';'`
    Do,
    /// `Each : ForeachStatement = 'for' '(' EVar ':' Expr ')' Stmt`
    Each,
    /// `EVar : LocalVariableDeclaration = LMods VType EDecl`
    EVar,
    /// `EDecl : VariableDeclarator = VarId`
    EDecl,
    /// `For : ForStatement = 'for' '(' FInit? ';' Expr? ';' FUpd? ')' Stmt`
    For,
    /// `FInit : ForInit = LVar / ExprL`
    FInit,
    /// `FUpd : ForUpdate = ExprL`
    FUpd,
    /// `ExprL : StatementExpressionList = list(Expr)`
    ExprL,
    /// `Try : TryStatement = 'try' Ress Block Catch* Finally? / 'try' Block (Catch+ Finally? / Finally)`
    Try,
    /// `Ress : ResourceList = '(' Res (';' Res)* ';'? ')'`
    Ress,
    /// `Res : Resource = RVar / Expr`
    Res,
    /// `RVar : LocalVariableDeclaration = LMods VType RDecl`
    RVar,
    /// `RDecl : VariableDeclarator = VarP '=' Expr`
    RDecl,
    /// `Catch : CatchClause = 'catch' '(' CPar ')' Block`
    Catch,
    /// `CPar : CatchParameter = LMods CTypes VarId`
    CPar,
    /// `CTypes :2 UnionType = CType ('|' CType)*`
    CTypes,
    /// `Finally : FinallyClause = 'finally' Block`
    Finally,
    /// `Switch : SwitchStatement = SwB`
    Switch,
    /// `SwE : SwitchExpression = SwB`
    SwE,
    /// `SwB = 'switch' '(' Expr ')' '{' (Arrow+ / Group*) '}'`
    SwB,
    /// `Arrow : SwitchArrowBranch = SLabel '->' (Block / Throw / Expr ';')`
    Arrow,
    /// `Group : SwitchFallthroughBranch = SLabel ':' BStmt*`
    Group,
    /// `SLabel : SwitchLabel = 'case' list(OrOr) / 'default'`
    SLabel,
    /// `Sync : SynchronizedStatement = 'synchronized' '(' Expr ')' Block`
    Sync,
    /// `Return : ReturnStatement = 'return' Expr? ';'`
    Return,
    /// `Throw : ThrowStatement = 'throw' Expr ';'`
    Throw,
    /// `Break : BreakStatement = 'break' id? ';'`
    Break,
    /// `Continue : ContinueStatement = 'continue' id? ';'`
    Continue,
    /// `Assert : AssertStatement = 'assert' Expr (':' Expr)? ';'`
    Assert,
    /// `Yield : YieldStatement = w'yield' Expr ';'`
    Yield,
    /// `EmptyS : EmptyStatement = ';'`
    EmptyS,
    /// `ExprS : ExpressionStatement = Expr ';'`
    ExprS,
    /// `Expr = Lambda / Assign / Cond`
    Expr,
    /// `Lambda : LambdaExpression = LPars '->' (Block / Expr)`
    Lambda,
    /// `LPars : LambdaParameterList = LId / '(' (list(LTyped) / list(LId))? ')'`
    LPars,
    /// `LTyped : LambdaParameter = LMods (w'var' &id / PType) VarId`
    LTyped,
    /// `LId : LambdaParameter = NoMods VarP`
    LId,
    /// `Assign : AssignmentExpression = Primary AOp Expr`
    Assign,
    /// `AOp = '=' / '+=' / '-=' / '*=' / '/=' / '%=' / '&=' / '|=' / '^=' / '<<=' / '>j' '>j' '>j' '=' / '>j' '>j'
    /// '='`
    AOp,
    /// `Cond = Tern / OrOr`
    Cond,
    /// `Tern : ConditionalExpression = OrOr '?' Expr ':' (Lambda / Cond)`
    Tern,
    /// `OrOr ~ AndAnd {InfixExpression '||' AndAnd}*`
    OrOr,
    /// A turn of `OrOr`: `InfixExpression '||' AndAnd`
    OrOrTurn,
    /// `AndAnd ~ BOr {InfixExpression '&&' BOr}*`
    AndAnd,
    /// A turn of `AndAnd`: `InfixExpression '&&' BOr`
    AndAndTurn,
    /// `BOr ~ BXor {InfixExpression '|' BXor}*`
    BOr,
    /// A turn of `BOr`: `InfixExpression '|' BXor`
    BOrTurn,
    /// `BXor ~ BAnd {InfixExpression '^' BAnd}*`
    BXor,
    /// A turn of `BXor`: `InfixExpression '^' BAnd`
    BXorTurn,
    /// `BAnd ~ Eq {InfixExpression '&' Eq}*`
    BAnd,
    /// A turn of `BAnd`: `InfixExpression '&' Eq`
    BAndTurn,
    /// `Eq ~ Rel {InfixExpression ('==' / '!=') Rel}*`
    Eq,
    /// A turn of `Eq`: `InfixExpression ('==' / '!=') Rel`
    EqTurn,
    /// `Rel ~ Shift {InfixExpression ('<=' / '<' / '>j' '=' / '>') Shift / 'instanceof' (PatE / TypeE)}*`
    Rel,
    /// A turn of `Rel`: `InfixExpression ('<=' / '<' / '>j' '=' / '>') Shift / 'instanceof' (PatE / TypeE)`
    RelTurn,
    /// `PatE : PatternExpression = TPat`
    PatE,
    /// `TPat : TypePattern = LMods Type VarP`
    TPat,
    /// `TypeE : TypeExpression = Type`
    TypeE,
    /// `Shift ~ Add {InfixExpression ('<<' / '>j' '>j' '>' / '>j' '>') Add}*`
    Shift,
    /// A turn of `Shift`: `InfixExpression ('<<' / '>j' '>j' '>' / '>j' '>') Add`
    ShiftTurn,
    /// `Add ~ Mul {InfixExpression ('+' / '-') Mul}*`
    Add,
    /// A turn of `Add`: `InfixExpression ('+' / '-') Mul`
    AddTurn,
    /// `Mul ~ Unary {InfixExpression ('*' / '/' / '%') Unary}*`
    Mul,
    /// A turn of `Mul`: `InfixExpression ('*' / '/' / '%') Unary`
    MulTurn,
    /// `Unary = Pre / CastP / CastR / Post`
    Unary,
    /// `Pre : UnaryExpression = ('++' / '--' / '+' / '-' / '!' / '~') Unary`
    Pre,
    /// `CastP : CastExpression = '(' PrimT ')' Unary`
    CastP,
    /// `CastR : CastExpression = '(' CastT ')' (Lambda / !('+' / '-' / '++' / '--') Unary)`
    CastR,
    /// `CastT :2 IntersectionType = Type ('&' CType)*`
    CastT,
    /// `Post ~ Primary {UnaryExpression '++' / '--'}*`
    Post,
    /// A turn of `Post`: `UnaryExpression '++' / '--'`
    PostTurn,
    /// `Primary ~ Head {MethodCall '.' TArgs? id Args | FieldAccess '.' id | ConstructorCall '.' 'new' TArgs? CType
    /// Args Anon? | ArrayAccess '[' Expr ']' | MethodReference '::' TArgs? (id / 'new')}*`
    Primary,
    /// A turn of `Primary`: `MethodCall '.' TArgs? id Args`
    PrimaryMethodCall,
    /// A turn of `Primary`: `FieldAccess '.' id`
    PrimaryFieldAccess,
    /// A turn of `Primary`: `ConstructorCall '.' 'new' TArgs? CType Args Anon?`
    PrimaryConstructorCall,
    /// A turn of `Primary`: `ArrayAccess '[' Expr ']'`
    PrimaryArrayAccess,
    /// A turn of `Primary`: `MethodReference '::' TArgs? (id / 'new')`
    PrimaryMethodReference,
    /// `Head = Num / Str / Chr / Bool / Null / '(' Expr ')' / SwE / ClassL / This / Super / NewA / New / MRef /
    /// Call / Var`
    Head,
    /// `Num : NumericLiteral = INT / FLOAT`
    Num,
    /// `Str : StringLiteral = STRING / BLOCK`
    Str,
    /// `Chr : CharLiteral = CHAR`
    Chr,
    /// `Bool : BooleanLiteral = 'true' / 'false'`
    Bool,
    /// `Null : NullLiteral = 'null'`
    Null,
    /// `ClassL : ClassLiteral = (Type / VoidT) '.' 'class'`
    ClassL,
    /// `This : ThisExpression = (CType '.')? 'this'`
    This,
    /// `Super : SuperExpression = (CType '.')? 'super' &('.' / '::')`
    Super,
    /// `NewA : ArrayAllocation = 'new' (ArrT ArrInit / NArr)`
    NewA,
    /// `NArr : ArrayType = Base NDims`
    NArr,
    /// `NDims : ArrayDimensions = DimE+ Dim*`
    NDims,
    /// `DimE : ArrayDimExpr = Ann* '[' Expr ']'`
    DimE,
    /// `New : ConstructorCall = 'new' TArgs? CType Args Anon?`
    New,
    /// `MRef : MethodReference = !(Name '::') TypeE '::' TArgs? (id / 'new')`
    MRef,
    /// `Call : MethodCall = id Args`
    Call,
    /// `Var : VariableAccess = id`
    Var,
    /// `Args : ArgumentList = '(' list(Expr)? ')'`
    Args,
}
