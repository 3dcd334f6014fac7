//! Objects.
use crate::cursor::{Parser, Read};
use crate::kept::{take_from, take_last};
use swc_ast::{
    ComputedPropName, Expr, Function, KeyValueProp, MethodProp, ObjectLit, Prop, PropName,
    PropOrSpread, Span, SpreadElement,
};
use text_lexer::{Construct, Kind, Token};

impl<'a> Parser<'a> {
    #[inline(never)]
    #[cycle(parser)]
    pub(crate) fn object(&mut self, room: u32) -> Read<Box<Expr>> {
        let start = self.start();
        self.bump();
        let first = self.kept.props.len();
        let mut levels = 0;
        for _ in self.place..self.tokens.len() {
            if self.is_at(Kind::RightBrace) {
                break;
            }
            let prop = self.property(room)?;
            levels = levels.max(prop);
            if !self.take(Kind::Comma) {
                break;
            }
        }
        self.object_of(start, first, levels)
    }

    /// The object of the properties from this one on that were kept, which ends here.
    #[inline(never)]
    fn object_of(&mut self, start: u32, first: usize, levels: u32) -> Read<Box<Expr>> {
        self.expect(Kind::RightBrace)?;
        let props = take_from(&mut self.kept.props, first)?;
        let span = self.span_from(start);
        self.nest(Expr::Object(ObjectLit { span, props }), levels)
    }

    /// Keeps a property. The levels of its expressions are returned.
    #[inline(never)]
    #[cycle(parser)]
    fn property(&mut self, room: u32) -> Read<u32> {
        let token = self.token();
        if matches!(token.kind, Kind::Dots) {
            return self.spread(room);
        }
        let behind = self.next_kind();
        if matches!(token.kind, Kind::Name) && matches!(behind, Kind::Comma | Kind::RightBrace) {
            return self.shorthand();
        }
        let levels = self.key(room)?;
        if self.is_at(Kind::LeftParen) {
            let function = self.function(room, token.start)?;
            return self.method(levels, function);
        }
        self.value_of_key(room, levels)
    }

    #[inline(never)]
    fn shorthand(&mut self) -> Read<u32> {
        let name = self.ident()?;
        self.kept
            .props
            .push(PropOrSpread::Prop(Prop::Shorthand(name)))?;
        Ok(0)
    }

    /// Keeps the method whose key was kept last and has so many levels.
    #[inline(never)]
    fn method(&mut self, levels: u32, function: Box<Function>) -> Read<u32> {
        let key = take_last(&mut self.kept.keys)?;
        let node = MethodProp { key, function };
        self.kept
            .props
            .push(PropOrSpread::Prop(Prop::Method(node)))?;
        Ok(levels.max(self.levels))
    }

    /// `: a` behind the key that was kept last and has so many levels.
    #[inline(never)]
    #[cycle(parser)]
    fn value_of_key(&mut self, room: u32, levels: u32) -> Read<u32> {
        self.expect(Kind::Colon)?;
        let value = self.assignment_inside(room)?;
        self.key_value(levels, value)
    }

    #[inline(never)]
    fn key_value(&mut self, levels: u32, value: Box<Expr>) -> Read<u32> {
        let key = take_last(&mut self.kept.keys)?;
        let node = KeyValueProp { key, value };
        self.kept
            .props
            .push(PropOrSpread::Prop(Prop::KeyValue(node)))?;
        Ok(levels.max(self.levels))
    }

    /// `...a`
    #[inline(never)]
    #[cycle(parser)]
    fn spread(&mut self, room: u32) -> Read<u32> {
        let start = self.start();
        self.bump();
        let dot3_token = self.span_from(start);
        let expr = self.assignment_inside(room)?;
        self.spread_of(dot3_token, expr)
    }

    #[inline(never)]
    fn spread_of(&mut self, dot3_token: Span, expr: Box<Expr>) -> Read<u32> {
        let node = PropOrSpread::Spread(SpreadElement { dot3_token, expr });
        self.kept.props.push(node)?;
        Ok(self.levels)
    }

    /// Refuses getters, setters, generators and asynchronous methods.
    #[inline(never)]
    fn refuse_special_method(&mut self) -> Read<()> {
        let token = self.token();
        if matches!(token.kind, Kind::Star) {
            return Err(self.leave_out(Construct::Generator));
        }
        if !matches!(token.kind, Kind::Name) {
            return Ok(());
        }
        if !matches!(token.end.saturating_sub(token.start), 3 | 5) {
            return Ok(());
        }
        let next = self.next();
        match self.text_of(token) {
            "get" | "set" if self.is_key(next) => Err(self.leave_out(Construct::Accessor)),
            "async"
                if !next.on_new_line && (matches!(next.kind, Kind::Star) || self.is_key(next)) => {
                Err(self.leave_out(Construct::Async))
            }
            _ => Ok(()),
        }
    }

    /// Whether a token begins a key.
    fn is_key(&self, token: Token) -> bool {
        self.is_word(token)
            || matches!(
                token.kind,
                Kind::Text | Kind::Number | Kind::LeftBracket | Kind::WideName
            )
    }

    /// Keeps a key, and returns its levels.
    #[inline(never)]
    #[cycle(parser)]
    fn key(&mut self, room: u32) -> Read<u32> {
        if !self.is_at(Kind::LeftBracket) {
            return self.plain_key();
        }
        let start = self.start();
        self.bump();
        let found = self.assignment_inside(room)?;
        self.computed_key(start, found)
    }

    /// Keeps a key that is no expression.
    #[inline(never)]
    fn plain_key(&mut self) -> Read<u32> {
        self.refuse_special_method()?;
        let key = match self.kind() {
            Kind::Number => PropName::Num(self.number()?),
            Kind::Text => PropName::Str(self.text_literal()?),
            _ => PropName::Ident(self.word()?),
        };
        self.kept.keys.push(key)?;
        Ok(0)
    }

    /// Keeps a key that is an expression. Its brackets begin at an offset and end here.
    #[inline(never)]
    fn computed_key(&mut self, start: u32, expr: Box<Expr>) -> Read<u32> {
        self.expect(Kind::RightBracket)?;
        let span = self.span_from(start);
        let key = ComputedPropName { span, expr };
        self.kept.keys.push(PropName::Computed(key))?;
        Ok(self.levels)
    }
}
